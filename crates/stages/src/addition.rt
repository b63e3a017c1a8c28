// A writer's add to a counter: a load and a store, with no transaction, since a writer is alone inside.
ghost use Rattle.std.specs.Prelude.{◌≡◌};
ghost use Rattle.stages.specs.Rows.{addition_call, addition_goes};

use crate::answer::Answer;
use crate::calls::{load, store};
use crate::layout::counter_cell;
use crate::stage::{Addition, Mode, Stage};
use memory::call::MemoryCall;

impl Addition {
    // The memory call of the row on a board of so many nodes. A full counter stays at 65,535.
    pub(crate) fn call(self, nodes: u8, card: usize) -> MemoryCall
        ensures { result ≡ addition_call nodes card self }
    {
        match self {
            Addition::A1 { counter, .. } => load(card, counter_cell(nodes, counter)),
            Addition::A2 {
                counter,
                amount,
                value,
            } => store(
                card,
                counter_cell(nodes, counter),
                value.saturating_add(amount),
            ),
        }
    }

    // Where the card goes when the memory accepted the call and answered value, and what the step answers.
    pub fn goes(self, node: u8, value: u16) -> (Stage, Answer)
        ensures { result ≡ addition_goes node self value }
    {
        match self {
            Addition::A1 { counter, amount } => {
                let at = Addition::A2 {
                    counter,
                    amount,
                    value,
                };
                (Stage::Adds { node, at }, Answer::Step)
            }
            Addition::A2 {
                amount,
                value: before,
                ..
            } => {
                let count = before.saturating_add(amount);
                let mode = Mode::Write;
                (Stage::Inside { node, mode }, Answer::Added { count })
            }
        }
    }
}
