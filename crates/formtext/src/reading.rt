// A text read whole.
ghost use Rattle.formtext.specs.Reads.{ReadsWhole};

use crate::faults::ReadFault;
use schedule::{take_count, take_end, take_event, take_sizes};
use std::alloc::Global;
use textline::{Event, SizeLines};

#[derive(Drop)]
pub struct Schedule {
    pub sizes: SizeLines,
    pub events: Vec<Event>,
}

// The schedule that `text` is the rendering of, or the first line at which it is that of none. The index is the event's
// number, by which a fault finds its line.
pub fn read(heap: Global, text: &[u8]) -> Result<Schedule, ReadFault>
    ensures { ReadsWhole text.now result }
{
    let (sizes, rest) = take_sizes(text)?;
    let (count, mut rest) = take_count(rest)?;
    let mut events = Vec::new(heap);
    for index in 0..count {
        let (e, after) = take_event(rest, index)?;
        events.push(e)?;
        rest = after;
    }
    take_end(rest, count)?;
    Ok(Schedule { sizes, events })
}
