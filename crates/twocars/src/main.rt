// Two cards count a car each on one cell: what each of them reads, and how the transactions keep the count right.
// Then the same calls on a memory of each kind, side by side.
#![tactic(auto)]

use deferred::deferred::Deferred;

mod calls;
mod compare;
mod printing;
mod reply;
mod task;

use crate::calls::calls;
use crate::compare::compare;
use crate::printing::print_comparison;
use crate::task::{count_both, tell};

fn main(rt: HostRuntime) -> anyhow::Result<()> {
    let mut memory = Deferred::new();
    match count_both(&mut memory) {
        Ok(observed) => tell(rt, &observed)?,
        Err(fault) => println!(rt; "refused {}", fault.refusal.number())?,
    }
    let comparison = compare(rt.alloc(), &calls())?;
    print_comparison(rt, &comparison)?;
    Ok(())
}
