// The comparison in words, call by call.
use crate::compare::{Comparison, Seen};
use crate::reply::Reply;
use crate::task::NORTH;
use memory::call::MemoryCall;
use std::io;

// What one memory did at a call.
fn print_seen(rt: HostRuntime, name: &str, call: MemoryCall, seen: &Seen) -> io::Result<()> {
    let answer = Reply::to(call, seen.answer);
    let held = Reply::from(seen.held);
    let standing = Reply::from(seen.standing);
    println!(rt; "  {name} {answer}; the cell holds {held}, and {standing} stands")
}

fn card_name(card: usize) -> &'static str {
    if card == NORTH { "North" } else { "South" }
}

// One line for each call; a call is a value here, so nothing is left to choose but its words.
fn print_call(rt: HostRuntime, call: MemoryCall) -> io::Result<()> {
    match call {
        MemoryCall::Clear => println!(rt; "The memory is cleared."),
        MemoryCall::Look { cell } => println!(rt; "Somebody looks at cell {cell}."),
        MemoryCall::Load { card, .. } => println!(rt; "{} loads.", card_name(card)),
        MemoryCall::Store { card, value, .. } => println!(rt;
            "{} stores {value}.",
            card_name(card)
        ),
        MemoryCall::Begin { card } => println!(rt; "{} begins.", card_name(card)),
        MemoryCall::Read { card, .. } => println!(rt; "{} reads.", card_name(card)),
        MemoryCall::Write { card, value, .. } => println!(rt;
            "{} writes {value}.",
            card_name(card)
        ),
        MemoryCall::Commit { card } => println!(rt; "{} commits.", card_name(card)),
        MemoryCall::Drop { card } => println!(rt; "{} drops.", card_name(card)),
    }
}

pub(crate) fn print_comparison(rt: HostRuntime, comparison: &Comparison) -> io::Result<()> {
    println!(rt;
        "The same calls on two memories. One sets values aside, the other writes in place."
    )?;
    for round in &comparison.rounds {
        print_call(rt, round.call)?;
        print_seen(rt, "set aside:", round.call, &round.deferred)?;
        print_seen(rt, "in place: ", round.call, &round.inplace)?;
    }
    Ok(())
}
