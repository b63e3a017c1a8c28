ghost use Rattle.std.specs.Prelude.{◌≡◌};
ghost use Rattle.door.specs.Faults.{number, raised};

use lock::fault::{LockFault, SizeFault};

// Sizes that are refused, and the memory that was to be set up, as it was.
#[derive(Drop)]
pub struct Unfit<M> {
    pub fault: SizeFault,
    pub memory: M,
}

// Why the door refuses a call.
#[derive(Clone, Copy)]
pub enum DoorFault {
    // toggle, kind or unused number wrong
    Malformed,
    // the toggle of the card's last request with another request
    Differs,
    // the lock refused
    Lock { fault: LockFault },
}

impl DoorFault {
    // The number by which a refusal is known outside. A match says it, since a refusal of the lock has the lock's own.
    pub fn number(self) -> u16
        ensures { result ≡ number self }
    {
        match self {
            DoorFault::Malformed => 3,
            DoorFault::Differs => 4,
            DoorFault::Lock { fault } => fault.number(),
        }
    }
}

// A fault of the lock passes up whole.
impl From<LockFault> for DoorFault {
    ghost from_gives = { λ x y. y ≡ raised x };

    fn from(fault: LockFault) -> DoorFault {
        DoorFault::Lock { fault }
    }
}
