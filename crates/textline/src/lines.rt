// Lines of a schedule: each ends with byte 10.
ghost use Rattle.std.specs.Prelude.{◌≡◌, slice_index};
ghost use Rattle.textline.specs.declared.events.Event.TheVariants.{Add, Show, Reuse};
ghost use Rattle.textline.specs.Numbers.{Found};
ghost use Rattle.textline.specs.Events.{Writes};
ghost use Rattle.textline.specs.Lines.{CutsLine, CutsNumber, CutsEvent};

use crate::events::Event;
use crate::numerals::{number, numbers};

const LINE_END: u8 = b'\n';

// The bytes before the first line end, and those behind it.
pub fn cut_line(s: &[u8]) -> Option<(&[u8], &[u8])>
    ensures { CutsLine s.now result }
{
    let end = s.iter().position(|b| *b == LINE_END)?;
    Some((&s[..end], &s[end + 1..]))
}

// The number that is alone on the first line, and the lines behind it.
pub fn cut_number(s: &[u8]) -> Option<(u16, &[u8])>
    ensures { CutsNumber s.now result }
{
    let (digits, after) = cut_line(s)?;
    Some((number(digits)?, after))
}

// The event of the first line, and the lines behind it. As `cut_number`: two lines each, and a function of both would
// take what reads the line as a closure.
pub fn cut_event(s: &[u8]) -> Option<(Event, &[u8])>
    ensures { CutsEvent s.now result }
{
    let (line, after) = cut_line(s)?;
    Some((read_event(line)?, after))
}

// The event that a line without its end writes. The longer events are made apart, so that the match stays short.
pub fn read_event(line: &[u8]) -> Option<Event>
    ensures { Found (Writes line.now) result }
{
    let (letter, rest) = line.split_first()?;
    match char::from(*letter) {
        'r' => {
            let [card, toggle, node] = numbers::<3>(rest)?;
            Some(Event::Read { card, toggle, node })
        }
        'w' => {
            let [card, toggle, node] = numbers::<3>(rest)?;
            Some(Event::Write { card, toggle, node })
        }
        'l' => {
            let [card, toggle] = numbers::<2>(rest)?;
            Some(Event::Leave { card, toggle })
        }
        'a' => numbers(rest).map(add),
        'c' => numbers(rest).map(show),
        's' => {
            let [card] = numbers::<1>(rest)?;
            Some(Event::Step { card })
        }
        'x' => {
            let [card] = numbers::<1>(rest)?;
            Some(Event::Abort { card })
        }
        'u' => numbers(rest).map(reuse),
        _ => None,
    }
}

// The event of the numbers after an `a`.
fn add(numbers: [u16; 4]) -> Event
    ensures { result ≡ Add (slice_index numbers 0) (slice_index numbers 1) (slice_index numbers 2)
        (slice_index numbers 3) }
{
    let [card, toggle, counter, amount] = numbers;
    Event::Add {
        card,
        toggle,
        counter,
        amount,
    }
}

// The event of the numbers after a `c`.
fn show(numbers: [u16; 3]) -> Event
    ensures { result ≡ Show (slice_index numbers 0) (slice_index numbers 1) (slice_index numbers 2) }
{
    let [card, toggle, counter] = numbers;
    Event::Show {
        card,
        toggle,
        counter,
    }
}

// The event of the numbers after a `u`.
fn reuse(numbers: [u16; 6]) -> Event
    ensures { result ≡ Reuse (slice_index numbers 0) (slice_index numbers 1) (slice_index numbers 2)
        (slice_index numbers 3) (slice_index numbers 4) (slice_index numbers 5) }
{
    let [card, node, next, prev, state, spin] = numbers;
    Event::Reuse {
        card,
        node,
        next,
        prev,
        state,
        spin,
    }
}
