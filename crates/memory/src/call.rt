ghost use Rattle.std.specs.Prelude.{◌≡◌};
ghost use Rattle.memory.specs.Calls.{performed};

use crate::fault::MemoryFault;
use crate::memory::Memory;

// A call of a memory, as a value.
#[derive(Clone, Copy)]
pub enum MemoryCall {
    Clear,
    Look {
        cell: usize,
    },
    Load {
        card: usize,
        cell: usize,
    },
    Store {
        card: usize,
        cell: usize,
        value: u16,
    },
    Begin {
        card: usize,
    },
    Read {
        card: usize,
        cell: usize,
    },
    Write {
        card: usize,
        cell: usize,
        value: u16,
    },
    Commit {
        card: usize,
    },
    Drop {
        card: usize,
    },
}

// Makes one call; one that answers no number answers 0, since whoever reads the number made a call that has one. A call
// is a value and no closure, so that a list of calls can be made and spoken of.
#[tactic(auto, unfolding(crate::specs::Calls::performed))]
pub fn perform<M: Memory>(memory: &mut M, call: MemoryCall) -> Result<u16, MemoryFault>
    ensures answer { result ≡ (performed (M.meaning memory.old) call).answer }
    ensures after { M.meaning memory.new ≡ (performed (M.meaning memory.old) call).after }
{
    match call {
        MemoryCall::Clear => {
            memory.clear();
            Ok(0)
        }
        MemoryCall::Look { cell } => memory.look(cell),
        MemoryCall::Load { card, cell } => memory.load(card, cell),
        MemoryCall::Read { card, cell } => memory.read(card, cell),
        MemoryCall::Store { card, cell, value } => memory.store(card, cell, value).map(|()| 0),
        MemoryCall::Begin { card } => memory.begin(card).map(|()| 0),
        MemoryCall::Write { card, cell, value } => memory.write(card, cell, value).map(|()| 0),
        MemoryCall::Commit { card } => memory.commit(card).map(|()| 0),
        MemoryCall::Drop { card } => memory.drop(card).map(|()| 0),
    }
}
