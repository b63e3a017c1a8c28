// Schedules as text.
ghost use Rattle.std.specs.Prelude.{◌≡◌, IfOk, string_bytes};
ghost use Rattle.schedule.specs.Schedules.{rendered, OneRendering};
ghost use Rattle.formtext.specs.Heads.{head_text};

use std::alloc::{AllocError, Global};
use textline::{Event, SizeLines};

// The first five lines: the sizes and the count of events, a line each, and not in the words of a report.
fn head(heap: Global, sizes: SizeLines, count: usize) -> Result<String, AllocError>
    ensures { IfOk result (λ s. string_bytes s ≡ head_text sizes count) }
{
    let SizeLines {
        cards,
        nodes,
        counters,
    } = sizes;
    format!(in heap; "3\n{cards}\n{nodes}\n{counters}\n{count}\n")
}

// The text of a schedule; no other schedule has the same text.
#[tactic(auto, using(schedule::proofs::Once::one_rendering))]
pub fn render(heap: Global, sizes: SizeLines, events: &[Event]) -> Result<String, AllocError>
    ensures text { IfOk result (λ s. string_bytes s ≡ rendered sizes events.now) }
    ensures apart { OneRendering }
{
    let mut out = head(heap, sizes, events.len())?;
    for e in events {
        writeln!(out, "{e}")?;
    }
    Ok(out)
}
