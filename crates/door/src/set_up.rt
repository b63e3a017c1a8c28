// A door newly set up, and its memory given back.
ghost use Rattle.std.specs.Prelude.{◌≡◌};
ghost use Rattle.door.specs.Door.{new_memo, new_door};
ghost use Rattle.door.specs.Doors.{door_state, given_by, set_up};

use crate::door::Door;
use crate::fault::Unfit;
use crate::request::Memo;
use lock::lock::Lock;
use lock::sizes::{Counts, Sizes};
use memory::memory::Memory;

// A card's memo on a new board: toggle 1, with no request, so that none equals it.
fn blank() -> Memo
    ensures { result ≡ new_memo }
{
    Memo {
        toggle: 1,
        last: None,
    }
}

impl<M: Memory> Door<M> {
    // A new board of these sizes.
    #[tactic(auto, unfolding(crate::specs::Door::new_door))]
    fn open(memory: M, sizes: Sizes) -> Door<M>
        ensures fresh { door_state M.meaning result ≡ new_door }
        ensures same { result.lock.sizes ≡ sizes }
    {
        let lock = Lock::set_up(memory, sizes);
        let memos = [blank(); 8];
        Door { lock, memos }
    }

    // Clears the memory and sets a lock up on it. Where a size is out of range, the memory comes back as it was.
    pub fn set_up(memory: M, asked: Counts) -> Result<Door<M>, Unfit<M>>
        ensures { given_by M.meaning result ≡ set_up memory asked.cards asked.nodes asked.counters }
    {
        match Sizes::new(asked) {
            Ok(sizes) => Ok(Door::open(memory, sizes)),
            Err(fault) => Err(Unfit { fault, memory }),
        }
    }

    // The memory, with whatever stands in it.
    pub fn into_memory(self) -> M
        ensures { result ≡ self.lock.memory }
    {
        self.lock.into_memory()
    }

    // The sizes of the board.
    pub fn sizes(&self) -> Sizes
        ensures { result ≡ self.now.lock.sizes }
    {
        self.lock.sizes()
    }
}
