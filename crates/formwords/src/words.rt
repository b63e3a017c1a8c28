// The words for what was understood.
ghost use Rattle.std.specs.Prelude.{◌≡◌, IfOk, Some, string_bytes};
ghost use Rattle.formwords.specs.Words.{event_words, sizes_line, count_line, event_line};

use std::alloc::{AllocError, Global};
use std::fmt;
use textline::{Event, SizeLines};

// An event with a name before each of its numbers. `Event` itself prints the line of a schedule, so these other words
// are a type of their own.
#[derive(Clone, Copy)]
pub struct Understood(pub Event);

impl fmt::Display for Understood {
    ghost output = { λ u. Some (event_words u.0) };

    fn fmt<W: fmt::Write>(&self, f: &mut fmt::Formatter<W>) -> fmt::Result {
        match self.0 {
            Event::Read { card, toggle, node } => write!(
                f,
                "read card {card} toggle {toggle} node {node}"
            ),
            Event::Write { card, toggle, node } => write!(
                f,
                "write card {card} toggle {toggle} node {node}"
            ),
            Event::Leave { card, toggle } => write!(f, "leave card {card} toggle {toggle}"),
            Event::Add {
                card,
                toggle,
                counter,
                amount,
            } => write!(
                f,
                "add card {card} toggle {toggle} counter {counter} amount {amount}"
            ),
            Event::Show {
                card,
                toggle,
                counter,
            } => write!(f, "show card {card} toggle {toggle} counter {counter}"),
            Event::Step { card } => write!(f, "step card {card}"),
            Event::Abort { card } => write!(f, "abort card {card}"),
            Event::Reuse {
                card,
                node,
                next,
                prev,
                state,
                spin,
            } => write!(
                f,
                "reuse card {card} node {node} next {next} prev {prev} state {state} spin {spin}"
            ),
        }
    }
}

// The size section on one line; a schedule has the same numbers on a line each.
pub fn sizes_line(heap: Global, sizes: SizeLines) -> Result<String, AllocError>
    ensures { IfOk result (λ s. string_bytes s ≡ sizes_line sizes) }
{
    let SizeLines {
        cards,
        nodes,
        counters,
    } = sizes;
    format!(in heap; "sizes {cards} {nodes} {counters}\n")
}

// The count of events.
pub fn count_line(heap: Global, count: u16) -> Result<String, AllocError>
    ensures { IfOk result (λ s. string_bytes s ≡ count_line count) }
{
    format!(in heap; "events {count}\n")
}

// The event of a line, after the number of that line. `format!` makes it, as it makes an answer's line.
pub fn event_line(heap: Global, line: u32, e: Event) -> Result<String, AllocError>
    ensures { IfOk result (λ s. string_bytes s ≡ event_line line e) }
{
    let words = Understood(e);
    format!(in heap; "{line} {words}\n")
}
