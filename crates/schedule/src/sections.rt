// The sections of a schedule in their order.
// What a call takes and the text behind it are a pair, as `split_first` gives it: the clauses tie the one to the other,
// and a caller holds no text that is half read.
ghost use Rattle.std.specs.Prelude.{◌≡◌, ◌+◌, ◌<◌, ◌≤◌, length, MatchResult, ◌≢◌};
ghost use Rattle.textline.specs.declared.faults.FormFault.TheVariants.{TooLong, BadLine};
ghost use Rattle.schedule.specs.Sections.{TakesNumber, TakesSizes, TakesCount, TakesEvent, TakesEnd};

use textline::{Event, FormFault, SizeLines, cut_event, cut_number};

// The most bytes that a schedule has.
const LONGEST: usize = 65535;

// The count that opens the size section: cards, nodes and counters follow it.
const SIZES: u16 = 3;

// The most events that a schedule has.
const MOST_EVENTS: u16 = 2000;

// The line of the count of events, and the line of the first event.
const COUNT_LINE: u32 = 5;

const FIRST_EVENT: u32 = 6;

// How many bytes of a text to read: one more than a schedule has at most, so that a longer one is seen to be too long.
pub fn read_limit() -> u64
    ensures { result ≡ 65536 }
{
    LONGEST as u64 + 1
}

// The line of the event that is number `index`, counted from 0.
pub fn line_of_event(index: u16) -> u32
    ensures { result ≡ 6 + index }
{
    FIRST_EVENT + u32::from(index)
}

// The number that is alone on the next line, which is number `line` of its text.
fn number_line(text: &[u8], line: u32) -> Result<(u16, &[u8]), FormFault>
    ensures { TakesNumber text.now line result }
{
    cut_number(text).ok_or(FormFault::BadLine { line })
}

// Judges the length of the whole text, then takes the size section off its front.
pub fn take_sizes(text: &[u8]) -> Result<(SizeLines, &[u8]), FormFault>
    ensures { TakesSizes text.now result }
{
    if text.len() > LONGEST {
        return Err(FormFault::TooLong);
    }
    let (opening, rest) = number_line(text, 1)?;
    if opening != SIZES {
        return Err(FormFault::BadLine { line: 1 });
    }
    let (cards, rest) = number_line(rest, 2)?;
    let (nodes, rest) = number_line(rest, 3)?;
    let (counters, rest) = number_line(rest, 4)?;
    let sizes = SizeLines {
        cards,
        nodes,
        counters,
    };
    Ok((sizes, rest))
}

// Takes the count of events, which is at most 2,000.
pub fn take_count(text: &[u8]) -> Result<(u16, &[u8]), FormFault>
    ensures { TakesCount text.now result }
{
    let (count, rest) = number_line(text, COUNT_LINE)?;
    if count > MOST_EVENTS {
        return Err(FormFault::BadLine { line: COUNT_LINE });
    }
    Ok((count, rest))
}

// Takes the event that is number `index`, counted from 0.
pub fn take_event(text: &[u8], index: u16) -> Result<(Event, &[u8]), FormFault>
    ensures { TakesEvent text.now index result }
{
    cut_event(text).ok_or(FormFault::BadLine {
        line: line_of_event(index),
    })
}

// Judges that nothing follows the last of `count` events, not even a byte without a line end.
pub fn take_end(text: &[u8], count: u16) -> Result<(), FormFault>
    ensures { TakesEnd text.now count result }
{
    if text.is_empty() {
        return Ok(());
    }
    Err(FormFault::BadLine {
        line: line_of_event(count),
    })
}
