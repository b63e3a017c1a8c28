// The whole account of a text.
ghost use Rattle.std.specs.Prelude.{IfOk, string_bytes};
ghost use Rattle.formreport.specs.Accounts.{Tells, Verdict, Accounts};

use formtext::ReadFault;
use formwords::{count_line, event_line, sizes_line};
use schedule::{line_of_event, take_count, take_end, take_event, take_sizes};
use std::alloc::{AllocError, Global};
use textline::bad_line;

// Appends to `out` what is understood of `text`, up to its end or to the first line at fault.
// The calls are those of `formtext::read`, but each event is told before the next line is read: one function for both
// would take a closure that also writes, and the clauses of what it leaves are longer than these lines.
fn tell(heap: Global, out: &mut String, text: &[u8]) -> Result<(), ReadFault>
    ensures { Tells (string_bytes out.old) text.now (string_bytes out.new) result }
{
    let (sizes, rest) = take_sizes(text)?;
    out.push_str(sizes_line(heap, sizes)?.as_str())?;
    let (count, mut rest) = take_count(rest)?;
    out.push_str(count_line(heap, count)?.as_str())?;
    // The index is the event's number, which stands before its words.
    for index in 0..count {
        let (e, after) = take_event(rest, index)?;
        out.push_str(event_line(heap, line_of_event(index), e)?.as_str())?;
        rest = after;
    }
    Ok(take_end(rest, count)?)
}

// The verdict on a text, by how its reading ended.
fn verdict(heap: Global, end: Result<(), ReadFault>) -> Result<String, AllocError>
    ensures { IfOk result (λ s. Verdict end (string_bytes s)) }
{
    match end {
        Ok(()) => String::from_str(heap, "whole\n"),
        Err(ReadFault::Form(f)) => bad_line(heap, f),
        Err(ReadFault::Memory(e)) => Err(e),
    }
}

// All that the form checker prints for `text`.
pub fn account(heap: Global, text: &[u8]) -> Result<String, AllocError>
    ensures { IfOk result (λ s. Accounts text.now (string_bytes s)) }
{
    let mut out = String::new(heap);
    let end = tell(heap, &mut out, text);
    out.push_str(verdict(heap, end)?.as_str())?;
    Ok(out)
}
