// What a card may ask of the lock: to enter, to leave, to add to a counter and to be shown one.
//
// Each call promises that the sizes stay, since no invariant of a lock can compare it with what it was before.
ghost use Rattle.std.specs.Prelude.{◌≡◌};
ghost use Rattle.lock.specs.Lock.{entered, left, added, shown};
ghost use Rattle.lock.specs.Locks.{lock_state, size_of};

use crate::fault::LockFault;
use crate::lock::Lock;
use crate::nodes::{first_stage, prepare};
use memory::memory::Memory;
use stages::answer::Answer;
use stages::layout::counter_cell;
use stages::stage::{Addition, Mode, ReaderExit, Stage, WriterExit};

impl<M: Memory> Lock<M> {
    // An idle card takes a free node and stands before the line, at the first row of its entry.
    pub fn enter(&mut self, card: usize, mode: Mode, node: u16) -> Result<Answer, LockFault>
        ensures moves { (result, lock_state M.meaning self.new)
            ≡ entered (size_of self.old.sizes) (lock_state M.meaning self.old) card mode node }
        ensures same { self.new.sizes ≡ self.old.sizes }
    {
        let Stage::Idle = self.stage_of(card)? else {
            return Err(LockFault::NotAllowed);
        };
        let node = self.free_node(node)?;
        prepare(&mut self.memory, card, node, mode)?;
        self.table.card_mut(card).stage = first_stage(node, mode);
        Ok(Answer::Done)
    }

    // A card inside stands at the first row of its exit.
    pub fn leave(&mut self, card: usize) -> Result<Answer, LockFault>
        ensures moves { (result, lock_state M.meaning self.new)
            ≡ left (size_of self.old.sizes) (lock_state M.meaning self.old) card }
        ensures same { self.new.sizes ≡ self.old.sizes }
    {
        let Stage::Inside { node, mode } = self.stage_of(card)? else {
            return Err(LockFault::NotAllowed);
        };
        self.table.card_mut(card).stage = match mode {
            Mode::Read => Stage::ReaderLeaves {
                node,
                at: ReaderExit::Y1,
            },
            Mode::Write => Stage::WriterLeaves {
                node,
                at: WriterExit::X1,
            },
        };
        Ok(Answer::Done)
    }

    // A card inside to write stands at the first row of an add.
    pub fn add(&mut self, card: usize, counter: u16, amount: u16) -> Result<Answer, LockFault>
        ensures moves { (result, lock_state M.meaning self.new)
            ≡ added (size_of self.old.sizes) (lock_state M.meaning self.old)
            card counter amount }
        ensures same { self.new.sizes ≡ self.old.sizes }
    {
        let Stage::Inside {
            node,
            mode: Mode::Write,
        } = self.stage_of(card)?
        else {
            return Err(LockFault::NotAllowed);
        };
        let counter = self.sizes.counter(counter)?;
        let at = Addition::A1 { counter, amount };
        self.table.card_mut(card).stage = Stage::Adds { node, at };
        Ok(Answer::Done)
    }

    // One load of a counter, by a card inside.
    #[tactic(auto, unfolding(memory::specs::Calls::performed))]
    pub fn show(&mut self, card: usize, counter: u16) -> Result<Answer, LockFault>
        ensures moves { (result, lock_state M.meaning self.new)
            ≡ shown (size_of self.old.sizes) (lock_state M.meaning self.old) card counter }
        ensures same { self.new.sizes ≡ self.old.sizes }
    {
        let Stage::Inside { .. } = self.stage_of(card)? else {
            return Err(LockFault::NotAllowed);
        };
        let counter = self.sizes.counter(counter)?;
        let cell = counter_cell(self.sizes.nodes, counter);
        let count = self.memory.load(card, cell)?;
        Ok(Answer::Count { count })
    }
}
