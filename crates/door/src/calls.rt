// The other calls of the board, every call as a value, and runs of them.
//
// Each promises that the sizes stay: no invariant of a door can compare it with what it was before.
ghost use Rattle.std.specs.Prelude.{◌≡◌, length};
ghost use Rattle.lock.specs.Lock.{stepped, aborted, reused};
ghost use Rattle.lock.specs.Lines.{nodes_in_line, placed};
ghost use Rattle.lock.specs.Locks.{lock_state};
ghost use Rattle.door.specs.Door.{passed, called, ran};
ghost use Rattle.door.specs.Doors.{door_state, door_size};

use crate::call::Call;
use crate::door::Door;
use crate::fault::DoorFault;
use lock::values::NodeValues;
use memory::memory::Memory;
use stages::answer::Answer;

impl<M: Memory> Door<M> {
    // Takes one row of the table of steps for a card. This and the next two hand a call down; each follows a law of its
    // own, so one function of them would only take the name of the call as a parameter.
    pub fn step(&mut self, card: u16) -> Result<Answer, DoorFault>
        ensures moves { (result, door_state M.meaning self.new)
            ≡ passed (door_state M.meaning self.old)
            (stepped (door_size self.old) (lock_state M.meaning self.old.lock) card) }
        ensures same { self.new.lock.sizes ≡ self.old.lock.sizes }
    {
        Ok(self.lock.step(usize::from(card))?)
    }

    // Drops a card's transaction and sends the card back to its begin.
    pub fn abort(&mut self, card: u16) -> Result<Answer, DoorFault>
        ensures moves { (result, door_state M.meaning self.new)
            ≡ passed (door_state M.meaning self.old)
            (aborted (door_size self.old) (lock_state M.meaning self.old.lock) card) }
        ensures same { self.new.lock.sizes ≡ self.old.lock.sizes }
    {
        Ok(self.lock.abort(usize::from(card))?)
    }

    // An idle card stores any four values in a free node's cells.
    pub fn reuse(&mut self, card: u16, node: u16, values: NodeValues) -> Result<Answer, DoorFault>
        ensures moves { (result, door_state M.meaning self.new)
            ≡ passed (door_state M.meaning self.old)
            (reused (door_size self.old) (lock_state M.meaning self.old.lock)
            card node values) }
        ensures same { self.new.lock.sizes ≡ self.old.lock.sizes }
    {
        Ok(self.lock.reuse(usize::from(card), node, values)?)
    }

    // Writes the nodes in line, in order, into the place, the unused numbers 0, and gives their count. It is the
    // caller's place of eight and no Vec, since a board has no heap.
    pub fn line(&self, place: &mut [u16; 8]) -> usize
        ensures nodes { place.new
            ≡ placed (nodes_in_line (door_state M.meaning self.now).lock.meaning
            (door_state M.meaning self.now).lock.cards) }
        ensures count { result
            ≡ length (nodes_in_line (door_state M.meaning self.now).lock.meaning
            (door_state M.meaning self.now).lock.cards) }
    {
        self.lock.line(place)
    }

    // Makes a call.
    #[tactic(auto, unfolding(crate::specs::Door::called))]
    pub fn call(&mut self, call: Call) -> Result<Answer, DoorFault>
        ensures moves { (result, door_state M.meaning self.new)
            ≡ called (door_size self.old) (door_state M.meaning self.old) call }
        ensures same { self.new.lock.sizes ≡ self.old.lock.sizes }
    {
        match call {
            Call::Request {
                card,
                toggle,
                kind,
                first,
                second,
            } => self.request(card, toggle, kind, first, second),
            Call::Step { card } => self.step(card),
            Call::Abort { card } => self.abort(card),
            Call::Reuse { card, node, values } => self.reuse(card, node, values),
        }
    }

    // Makes the calls in turn.
    pub fn run(&mut self, calls: &[Call])
        ensures moves { door_state M.meaning self.new
            ≡ ran (door_size self.old) (door_state M.meaning self.old) calls.now }
        ensures same { self.new.lock.sizes ≡ self.old.lock.sizes }
    {
        for call in calls {
            let _ = self.call(*call);
        }
    }
}
