// A lock newly set up, and its memory given back.
ghost use Rattle.std.specs.Prelude.{◌≡◌};
ghost use Rattle.lock.specs.Lock.{new_lock};
ghost use Rattle.lock.specs.Locks.{lock_state};

use crate::lock::Lock;
use crate::sizes::Sizes;
use crate::table::Table;
use memory::memory::Memory;
use stages::stage::{Card, Stage};

impl<M: Memory> Lock<M> {
    // Clears the memory and gives every card an idle record.
    pub fn set_up(mut memory: M, sizes: Sizes) -> Lock<M>
        ensures fresh { lock_state M.meaning result ≡ new_lock }
        ensures same { result.sizes ≡ sizes }
    {
        memory.clear();
        let idle = Card { stage: Stage::Idle };
        let table = Table { records: [idle; 8] };
        Lock {
            memory,
            sizes,
            table,
        }
    }

    // The sizes of the lock.
    pub fn sizes(&self) -> Sizes
        ensures { result ≡ self.now.sizes }
    {
        self.sizes
    }

    // The memory, with whatever stands in it.
    pub fn into_memory(self) -> M
        ensures { result ≡ self.memory }
    {
        self.memory
    }
}
