// The rows of the table of steps: a card's stage names its row, and each row makes one memory call.
//
// Each phase has rows of its own, and nothing works on any phase alike: a trait of theirs would add a table of laws and
// take away no arm of these. A row takes the card and the node as they are, for a record of them would be taken apart
// in each.
ghost use Rattle.std.specs.Prelude.{◌≡◌, ℕ};
ghost use Rattle.stages.specs.Rows.{call_of, begin_of, in_transaction, by_transaction};

use crate::stage::{ReaderEntry, ReaderExit, Stage, WriterEntry, WriterExit};
use memory::call::MemoryCall;

// The memory call of a card's stage on a board of so many nodes; none for a card that is idle or inside.
pub fn call_of(nodes: u8, card: usize, stage: Stage) -> Option<MemoryCall>
    ensures { result ≡ call_of nodes card stage }
{
    match stage {
        Stage::Idle | Stage::Inside { .. } => None,
        Stage::WriterEnters { node, at } => Some(at.call(card, node)),
        Stage::ReaderEnters { node, at } => Some(at.call(card, node)),
        Stage::Adds { at, .. } => Some(at.call(nodes, card)),
        Stage::WriterLeaves { node, at } => Some(at.call(card, node)),
        Stage::ReaderLeaves { node, at } => Some(at.call(card, node)),
    }
}

// The begin of a stage's transaction, on the same node; a stage without one stays.
pub fn begin_of(stage: Stage) -> Stage
    ensures { result ≡ begin_of stage }
{
    match stage {
        Stage::Idle | Stage::Inside { .. } | Stage::Adds { .. } => stage,
        Stage::WriterEnters { node, at } => Stage::WriterEnters {
            node,
            at: at.begin(),
        },
        Stage::ReaderEnters { node, at } => Stage::ReaderEnters {
            node,
            at: at.begin(),
        },
        Stage::WriterLeaves { node, at } => Stage::WriterLeaves {
            node,
            at: at.begin(),
        },
        Stage::ReaderLeaves { node, at } => Stage::ReaderLeaves {
            node,
            at: at.begin(),
        },
    }
}

// Whether the row of a stage goes by a transaction, which is so for any card on any board; a stage without a row has
// none. The row's call would tell it too, but with a second caller `call_of` is no longer compiled into the step, which
// then takes a quarter more instructions.
pub fn has_transaction(stage: Stage) -> bool
    ensures { (nodes card : ℕ) → result ≡ by_transaction (call_of nodes card stage) }
{
    match stage {
        Stage::Idle | Stage::Inside { .. } | Stage::Adds { .. } => false,
        Stage::WriterEnters { at, .. } => !matches!(at, WriterEntry::W1 | WriterEntry::W6),
        Stage::ReaderEnters { at, .. } => !matches!(
            at,
            ReaderEntry::R1
                | ReaderEntry::R8
                | ReaderEntry::R9
                | ReaderEntry::R13 { .. }
                | ReaderEntry::R14 { .. }
        ),
        Stage::WriterLeaves { at, .. } => !matches!(at, WriterExit::X1 | WriterExit::X5 { .. }),
        Stage::ReaderLeaves { at, .. } => !matches!(at, ReaderExit::Y1 | ReaderExit::Y8 { .. }),
    }
}

// Whether a call goes by a transaction. It is for whoever holds a call; a stage is told of above.
pub fn in_transaction(call: MemoryCall) -> bool
    ensures { result ≡ in_transaction call }
{
    matches!(
        call,
        MemoryCall::Read { .. }
            | MemoryCall::Write { .. }
            | MemoryCall::Commit { .. }
            | MemoryCall::Drop { .. }
    )
}
