// A writer's way out: it takes itself off the line and wakes its successor.
ghost use Rattle.std.specs.Prelude.{◌≡◌};
ghost use Rattle.stages.specs.Rows.{writer_exit_call, writer_exit_goes, writer_exit_begin};

use crate::answer::Answer;
use crate::calls::{read, store, write};
use crate::layout::{Field, cell_of, link_of};
use crate::stage::{Stage, WriterExit};
use memory::call::MemoryCall;

impl WriterExit {
    // The memory call of the row.
    pub(crate) fn call(self, card: usize, node: u8) -> MemoryCall
        ensures { result ≡ writer_exit_call card node self }
    {
        match self {
            WriterExit::X1 => MemoryCall::Begin { card },
            WriterExit::X2 => read(card, cell_of(link_of(node), Field::Next)),
            WriterExit::X3 { nxt } => write(card, cell_of(nxt, Field::Prev), 0),
            WriterExit::X4 { .. } => MemoryCall::Commit { card },
            WriterExit::X5 { nxt } => store(card, cell_of(nxt, Field::Spin), 0),
        }
    }

    // Where the card goes when the memory accepted the call and answered value, and what the step answers.
    pub fn goes(self, node: u8, value: u16) -> (Stage, Answer)
        ensures { result ≡ writer_exit_goes node self value }
    {
        let at = match self {
            WriterExit::X1 => WriterExit::X2,
            WriterExit::X2 => WriterExit::X3 { nxt: value },
            WriterExit::X3 { nxt } => WriterExit::X4 { nxt },
            WriterExit::X4 { nxt } if nxt != 0 => WriterExit::X5 { nxt },
            WriterExit::X4 { .. } | WriterExit::X5 { .. } => return (Stage::Idle, Answer::Out),
        };
        (Stage::WriterLeaves { node, at }, Answer::Step)
    }

    // The begin of the row's transaction; a row without one stays.
    pub(crate) fn begin(self) -> WriterExit
        ensures { result ≡ writer_exit_begin self }
    {
        match self {
            WriterExit::X5 { .. } => self,
            _ => WriterExit::X1,
        }
    }
}
