ghost use Rattle.std.specs.Prelude.{◌≡◌};
ghost use Rattle.lock.specs.Faults.{number, raised, size_number};

use memory::fault::MemoryFault;

// Why sizes are refused, by the number by which the refusal is known outside. There is one reason today; an enum is
// what each layer has for its faults, and a second reason would be another variant.
#[derive(Clone, Copy)]
pub enum SizeFault {
    // a size is out of range
    OutOfRange = 1,
}

impl SizeFault {
    // The number by which the refusal is known outside.
    pub fn number(self) -> u16
        ensures { result ≡ size_number self }
    {
        self as u16
    }
}

// Why the lock refuses a call, in the order of judging.
#[derive(Clone, Copy)]
pub enum LockFault {
    // no such card
    NoCard,
    // not allowed at the card's stage
    NotAllowed,
    // no such node or counter
    NoPlace,
    // the node is another card's
    NotFree,
    // the memory refused
    Memory { fault: MemoryFault },
}

impl LockFault {
    // The number by which a refusal is known outside. A match says it, since a refusal of the memory keeps its fault.
    pub fn number(self) -> u16
        ensures { result ≡ number self }
    {
        match self {
            LockFault::NoCard => 2,
            LockFault::NotAllowed => 5,
            LockFault::NoPlace => 6,
            LockFault::NotFree => 7,
            LockFault::Memory { .. } => 8,
        }
    }
}

// A fault of the memory passes up whole.
impl From<MemoryFault> for LockFault {
    ghost from_gives = { λ x y. y ≡ raised x };

    fn from(fault: MemoryFault) -> LockFault {
        LockFault::Memory { fault }
    }
}
