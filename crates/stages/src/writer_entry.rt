// A writer's way in: it takes the tail, links itself behind its predecessor and waits for it.
ghost use Rattle.std.specs.Prelude.{◌≡◌};
ghost use Rattle.stages.specs.Rows.{writer_entry_call, writer_entry_goes, writer_entry_begin};

use crate::answer::Answer;
use crate::calls::{load, read, write};
use crate::layout::{Field, TAIL, cell_of, link_of};
use crate::stage::{Mode, Stage, WriterEntry};
use memory::call::MemoryCall;

impl WriterEntry {
    // The memory call of the row.
    pub(crate) fn call(self, card: usize, node: u8) -> MemoryCall
        ensures { result ≡ writer_entry_call card node self }
    {
        let me = link_of(node);
        match self {
            WriterEntry::W1 => MemoryCall::Begin { card },
            WriterEntry::W2 => read(card, TAIL),
            WriterEntry::W3 { .. } => write(card, TAIL, me),
            WriterEntry::W4 { pred } => write(card, cell_of(pred, Field::Next), me),
            WriterEntry::W5 { .. } => MemoryCall::Commit { card },
            WriterEntry::W6 => load(card, cell_of(me, Field::Spin)),
        }
    }

    // Where the card goes when the memory accepted the call and answered value, and what the step answers.
    pub fn goes(self, node: u8, value: u16) -> (Stage, Answer)
        ensures { result ≡ writer_entry_goes node self value }
    {
        let at = match self {
            WriterEntry::W1 => WriterEntry::W2,
            WriterEntry::W2 => WriterEntry::W3 { pred: value },
            WriterEntry::W3 { pred } if pred == 0 => WriterEntry::W5 { pred },
            WriterEntry::W3 { pred } => WriterEntry::W4 { pred },
            WriterEntry::W4 { pred } => WriterEntry::W5 { pred },
            WriterEntry::W5 { pred } if pred != 0 => WriterEntry::W6,
            WriterEntry::W6 if value != 0 => return (
                Stage::WriterEnters { node, at: self },
                Answer::Wait,
            ),
            WriterEntry::W5 { .. } | WriterEntry::W6 => {
                return (
                    Stage::Inside {
                        node,
                        mode: Mode::Write,
                    },
                    Answer::In,
                );
            }
        };
        (Stage::WriterEnters { node, at }, Answer::Step)
    }

    // The begin of the row's transaction; a row without one stays.
    pub(crate) fn begin(self) -> WriterEntry
        ensures { result ≡ writer_entry_begin self }
    {
        match self {
            WriterEntry::W6 => self,
            _ => WriterEntry::W1,
        }
    }
}
