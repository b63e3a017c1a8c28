// A reader's way in: it joins the line as a writer does, then makes itself active and lets a reader behind it in.
ghost use Rattle.std.specs.Prelude.{◌≡◌};
ghost use Rattle.stages.specs.Rows.{reader_entry_call, reader_entry_goes, reader_entry_begin};

use crate::answer::Answer;
use crate::calls::{load, read, store, write};
use crate::layout::{Field, State, TAIL, cell_of, link_of};
use crate::stage::{Mode, ReaderEntry, Stage};
use memory::call::MemoryCall;

impl ReaderEntry {
    // The memory call of the row.
    pub(crate) fn call(self, card: usize, node: u8) -> MemoryCall
        ensures { result ≡ reader_entry_call card node self }
    {
        let me = link_of(node);
        match self {
            ReaderEntry::R1 | ReaderEntry::R9 => MemoryCall::Begin { card },
            ReaderEntry::R2 => read(card, TAIL),
            ReaderEntry::R3 { .. } => write(card, TAIL, me),
            ReaderEntry::R4 { pred } => write(card, cell_of(me, Field::Prev), pred),
            ReaderEntry::R5 { pred } => write(card, cell_of(pred, Field::Next), me),
            ReaderEntry::R6 { pred } => read(card, cell_of(pred, Field::State)),
            ReaderEntry::R7 { .. } | ReaderEntry::R12 { .. } => MemoryCall::Commit { card },
            ReaderEntry::R8 => load(card, cell_of(me, Field::Spin)),
            ReaderEntry::R10 => write(card, cell_of(me, Field::State), State::Active as u16),
            ReaderEntry::R11 => read(card, cell_of(me, Field::Next)),
            ReaderEntry::R13 { nxt } => load(card, cell_of(nxt, Field::State)),
            ReaderEntry::R14 { nxt } => store(card, cell_of(nxt, Field::Spin), 0),
        }
    }

    // Where the card goes when the memory accepted the call and answered value, and what the step answers.
    pub fn goes(self, node: u8, value: u16) -> (Stage, Answer)
        ensures { result ≡ reader_entry_goes node self value }
    {
        let at = match self {
            ReaderEntry::R1 => ReaderEntry::R2,
            ReaderEntry::R2 => ReaderEntry::R3 { pred: value },
            ReaderEntry::R3 { pred } if pred == 0 => ReaderEntry::R7 { pred, ps: 0 },
            ReaderEntry::R3 { pred } => ReaderEntry::R4 { pred },
            ReaderEntry::R4 { pred } => ReaderEntry::R5 { pred },
            ReaderEntry::R5 { pred } => ReaderEntry::R6 { pred },
            ReaderEntry::R6 { pred } => ReaderEntry::R7 { pred, ps: value },
            ReaderEntry::R7 { pred, ps } if pred != 0 && ps != State::Active as u16 =>
                ReaderEntry::R8,
            ReaderEntry::R8 if value != 0 => return (
                Stage::ReaderEnters { node, at: self },
                Answer::Wait,
            ),
            ReaderEntry::R7 { .. } | ReaderEntry::R8 => ReaderEntry::R9,
            ReaderEntry::R9 => ReaderEntry::R10,
            ReaderEntry::R10 => ReaderEntry::R11,
            ReaderEntry::R11 => ReaderEntry::R12 { nxt: value },
            ReaderEntry::R12 { nxt } if nxt != 0 => ReaderEntry::R13 { nxt },
            ReaderEntry::R13 { nxt } if value == State::Reader as u16 => ReaderEntry::R14 { nxt },
            ReaderEntry::R12 { .. } | ReaderEntry::R13 { .. } | ReaderEntry::R14 { .. } => {
                return (
                    Stage::Inside {
                        node,
                        mode: Mode::Read,
                    },
                    Answer::In,
                );
            }
        };
        (Stage::ReaderEnters { node, at }, Answer::Step)
    }

    // The begin of the row's transaction; a row without one stays.
    pub(crate) fn begin(self) -> ReaderEntry
        ensures { result ≡ reader_entry_begin self }
    {
        match self {
            ReaderEntry::R8 | ReaderEntry::R13 { .. } | ReaderEntry::R14 { .. } => self,
            ReaderEntry::R9 | ReaderEntry::R10 | ReaderEntry::R11 | ReaderEntry::R12 { .. } => {
                ReaderEntry::R9
            }
            _ => ReaderEntry::R1,
        }
    }
}
