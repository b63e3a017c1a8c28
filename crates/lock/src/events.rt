// The events that are no requests: step, abort and reuse. Each promises that the sizes stay, as the requests do.
ghost use Rattle.std.specs.Prelude.{◌≡◌};
ghost use Rattle.lock.specs.Lock.{stepped, aborted, reused};
ghost use Rattle.lock.specs.Locks.{lock_state, size_of};

use crate::advance::advance;
use crate::fault::LockFault;
use crate::lock::Lock;
use crate::nodes::fill;
use crate::values::NodeValues;
use memory::call::perform;
use memory::memory::Memory;
use stages::answer::Answer;
use stages::rows::{begin_of, call_of, has_transaction};
use stages::stage::Stage;

impl<M: Memory> Lock<M> {
    // Takes one row of the table of steps for a card: one memory call, and then the card moves by its outcome.
    pub fn step(&mut self, card: usize) -> Result<Answer, LockFault>
        ensures moves { (result, lock_state M.meaning self.new)
            ≡ stepped (size_of self.old.sizes) (lock_state M.meaning self.old) card }
        ensures same { self.new.sizes ≡ self.old.sizes }
    {
        let stage = self.stage_of(card)?;
        let call = call_of(self.sizes.nodes, card, stage).ok_or(LockFault::NotAllowed)?;
        let outcome = perform(&mut self.memory, call);
        advance(self.table.card_mut(card), outcome)
    }

    // Drops a card's transaction, open or doomed, and sends the card back to its begin.
    #[tactic(auto, unfolding(memory::specs::Calls::performed))]
    pub fn abort(&mut self, card: usize) -> Result<Answer, LockFault>
        ensures moves { (result, lock_state M.meaning self.new)
            ≡ aborted (size_of self.old.sizes) (lock_state M.meaning self.old) card }
        ensures same { self.new.sizes ≡ self.old.sizes }
    {
        let stage = self.stage_of(card)?;
        if !has_transaction(stage) {
            return Err(LockFault::NotAllowed);
        }
        self.memory.drop(card)?;
        self.table.card_mut(card).stage = begin_of(stage);
        Ok(Answer::Done)
    }

    // An idle card stores any four values in a free node's cells.
    pub fn reuse(&mut self, card: usize, node: u16, values: NodeValues) -> Result<Answer, LockFault>
        ensures moves { (result, lock_state M.meaning self.new)
            ≡ reused (size_of self.old.sizes) (lock_state M.meaning self.old) card node values }
        ensures same { self.new.sizes ≡ self.old.sizes }
    {
        let Stage::Idle = self.stage_of(card)? else {
            return Err(LockFault::NotAllowed);
        };
        let node = self.free_node(node)?;
        fill(&mut self.memory, card, node, values)?;
        Ok(Answer::Done)
    }
}
