// A reader's way out: it joins its predecessor and its successor, and wakes a writer that it leaves first in line.
ghost use Rattle.std.specs.Prelude.{◌≡◌};
ghost use Rattle.stages.specs.Rows.{reader_exit_call, reader_exit_goes, reader_exit_begin};

use crate::answer::Answer;
use crate::calls::{read, store, write};
use crate::layout::{Field, State, cell_of, link_of};
use crate::stage::{ReaderExit, Stage};
use memory::call::MemoryCall;

impl ReaderExit {
    // The memory call of the row.
    pub(crate) fn call(self, card: usize, node: u8) -> MemoryCall
        ensures { result ≡ reader_exit_call card node self }
    {
        let me = link_of(node);
        match self {
            ReaderExit::Y1 => MemoryCall::Begin { card },
            ReaderExit::Y2 => read(card, cell_of(me, Field::Prev)),
            ReaderExit::Y3 { .. } => read(card, cell_of(me, Field::Next)),
            ReaderExit::Y4 { pred, nxt } => write(card, cell_of(pred, Field::Next), nxt),
            ReaderExit::Y5 { pred, nxt } => write(card, cell_of(nxt, Field::Prev), pred),
            ReaderExit::Y6 { nxt, .. } => read(card, cell_of(nxt, Field::State)),
            ReaderExit::Y7 { .. } => MemoryCall::Commit { card },
            ReaderExit::Y8 { nxt } => store(card, cell_of(nxt, Field::Spin), 0),
        }
    }

    // Where the card goes when the memory accepted the call and answered value, and what the step answers.
    pub fn goes(self, node: u8, value: u16) -> (Stage, Answer)
        ensures { result ≡ reader_exit_goes node self value }
    {
        let at = match self {
            ReaderExit::Y1 => ReaderExit::Y2,
            ReaderExit::Y2 => ReaderExit::Y3 { pred: value },
            ReaderExit::Y3 { pred } if pred == 0 => ReaderExit::Y5 { pred, nxt: value },
            ReaderExit::Y3 { pred } => ReaderExit::Y4 { pred, nxt: value },
            ReaderExit::Y4 { pred, nxt } => ReaderExit::Y5 { pred, nxt },
            ReaderExit::Y5 { pred, nxt } if pred == 0 && nxt != 0 => ReaderExit::Y6 { pred, nxt },
            ReaderExit::Y5 { pred, nxt } => ReaderExit::Y7 { pred, nxt, ss: 0 },
            ReaderExit::Y6 { pred, nxt } => ReaderExit::Y7 {
                pred,
                nxt,
                ss: value,
            },
            ReaderExit::Y7 { pred, nxt, ss }
                if pred == 0 && nxt != 0 && ss == State::Writer as u16 => { ReaderExit::Y8 { nxt } }
            ReaderExit::Y7 { .. } | ReaderExit::Y8 { .. } => return (Stage::Idle, Answer::Out),
        };
        (Stage::ReaderLeaves { node, at }, Answer::Step)
    }

    // The begin of the row's transaction; a row without one stays.
    pub(crate) fn begin(self) -> ReaderExit
        ensures { result ≡ reader_exit_begin self }
    {
        match self {
            ReaderExit::Y8 { .. } => self,
            _ => ReaderExit::Y1,
        }
    }
}
