ghost use Rattle.std.specs.Prelude.{◌≡◌};
ghost use Rattle.memory.specs.Meaning.{cleared};
ghost use Rattle.memory.specs.Calls.{after_calls};
ghost use Rattle.memory.specs.Examples.{ExamplesHold};
ghost use Rattle.memory.specs.Isolation.{Sound, AlwaysSound};
ghost use Rattle.memory.specs.Lasting.{ReadsLast};

use crate::call::{MemoryCall, perform};
use crate::memory::Memory;

// Clears the memory and makes the calls in turn, refused ones too. Whatever they are, no two open transactions
// overlap after them: what one has written, another has neither marked nor written. So what a transaction has read
// still stands while it is open.
pub fn replay<M: Memory>(memory: &mut M, calls: &[MemoryCall])
    ensures after { M.meaning memory.new ≡ after_calls cleared calls.now }
    ensures sound { Sound (M.meaning memory.new) }
    ensures law { AlwaysSound }
    ensures lasting { ReadsLast }
    ensures examples { ExamplesHold }
{
    memory.clear();
    for call in calls {
        let _ = perform(memory, *call);
    }
}
