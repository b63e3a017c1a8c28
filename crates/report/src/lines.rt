// Whole lines, each with its line end. A function says which line it is.
ghost use Rattle.std.specs.Prelude.{◌≡◌, IfOk, string_bytes};
ghost use Rattle.report.specs.Texts.{answer_line, sizes_line, queue_line};

use crate::words::Outcome;
use door::fault::DoorFault;
use lock::fault::SizeFault;
use stages::answer::Answer;
use std::alloc::{AllocError, Global};

// The line of the event with the number `k`, counted from 1.
pub fn answer_line(
    heap: Global,
    k: u16,
    res: Result<Answer, DoorFault>,
) -> Result<String, AllocError>
    ensures { IfOk result (λ s. string_bytes s ≡ answer_line k res) }
{
    let outcome = Outcome(res);
    format!(in heap; "{k} {outcome}\n")
}

// The only line of a run whose sizes are refused: a text, for which room is asked for once.
pub fn refused_sizes(heap: Global, fault: SizeFault) -> Result<String, AllocError>
    ensures { IfOk result (λ s. string_bytes s ≡ sizes_line fault) }
{
    match fault {
        SizeFault::OutOfRange => String::from_str(heap, "refused 1\n"),
    }
}

// The line that ends a whole run: the nodes in line.
pub fn queue_line(heap: Global, nodes: &[u16]) -> Result<String, AllocError>
    ensures { IfOk result (λ s. string_bytes s ≡ queue_line nodes.now) }
{
    let mut out = String::from_str(heap, "queue")?;
    for n in nodes {
        write!(out, " {n}")?;
    }
    out.push_str("\n")?;
    Ok(out)
}
