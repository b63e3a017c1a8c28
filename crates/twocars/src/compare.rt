// The same calls on a memory of each kind: they differ in what a cell holds, and agree in all that is promised.
ghost use Rattle.std.specs.Prelude.{◌≡◌, IfOk};
ghost use Rattle.twocars.specs.Agreement.{SameMeaning, Alike, Agrees};

use crate::task::COUNTER;
use deferred::deferred::Deferred;
use inplace::inplace::InPlace;
use memory::call::{MemoryCall, perform};
use memory::fault::MemoryFault;
use memory::memory::Memory;
use std::alloc::{AllocError, Global};

// One memory of each kind.
#[derive(Drop)]
pub(crate) struct Pair {
    deferred: Deferred,
    inplace: InPlace,
}

// A memory's answer to a call, what the counter's cell itself holds after it, and the value that stands there.
#[derive(Drop)]
pub(crate) struct Seen {
    pub(crate) answer: Result<u16, MemoryFault>,
    pub(crate) held: Result<u16, MemoryFault>,
    pub(crate) standing: Result<u16, MemoryFault>,
}

// One call, and what each memory did.
#[derive(Drop)]
pub(crate) struct Round {
    pub(crate) call: MemoryCall,
    pub(crate) deferred: Seen,
    pub(crate) inplace: Seen,
}

// The rounds in turn, and the memories after the last.
#[derive(Drop)]
pub(crate) struct Comparison {
    pub(crate) rounds: Vec<Round>,
    pair: Pair,
}

impl Pair {
    // Two new memories.
    fn new() -> Pair
        ensures { SameMeaning result }
    {
        Pair {
            deferred: Deferred::new(),
            inplace: InPlace::new(),
        }
    }

    // Makes the call on both memories.
    fn make(&mut self, call: MemoryCall) -> Round
        ensures call { result.call ≡ call }
        ensures alike { SameMeaning self.old → Alike result }
        ensures same { SameMeaning self.old → SameMeaning self.new }
    {
        let deferred = perform(&mut self.deferred, call);
        let inplace = perform(&mut self.inplace, call);
        Round {
            call,
            deferred: Seen {
                answer: deferred,
                held: self.deferred.held(COUNTER),
                standing: self.deferred.look(COUNTER),
            },
            inplace: Seen {
                answer: inplace,
                held: self.inplace.held(COUNTER),
                standing: self.inplace.look(COUNTER),
            },
        }
    }
}

// Makes the calls in turn on two new memories. Whatever they are, both memories give the same answers, the same value
// stands in the counter after each, and at the end the memories have the same meaning.
pub(crate) fn compare(heap: Global, calls: &[MemoryCall]) -> Result<Comparison, AllocError>
    ensures { IfOk result (λ c. Agrees calls.now c) }
{
    let mut pair = Pair::new();
    let mut rounds = Vec::new(heap);
    // A loop, as each call changes the pair, and a round may find no room.
    for call in calls {
        let round = pair.make(*call);
        rounds.push(round)?;
    }
    Ok(Comparison { rounds, pair })
}
