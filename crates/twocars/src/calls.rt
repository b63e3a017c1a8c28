// The calls that both memories get. Those of the counter have a name each, so that the list reads as a story.
ghost use Rattle.std.specs.Prelude.{◌≡◌};
ghost use Rattle.memory.specs.declared.call.MemoryCall.TheVariants.{Read, Write, Load};

use crate::task::{COUNTER, NORTH, SOUTH};
use memory::call::MemoryCall;

// The card reads the counter in its transaction.
fn read(card: usize) -> MemoryCall
    ensures { result ≡ Read card 136 }
{
    MemoryCall::Read {
        card,
        cell: COUNTER,
    }
}

// The card writes the counter in its transaction.
fn write(card: usize, value: u16) -> MemoryCall
    ensures { result ≡ Write card 136 value }
{
    MemoryCall::Write {
        card,
        cell: COUNTER,
        value,
    }
}

// The card loads the counter without a transaction.
fn load(card: usize) -> MemoryCall
    ensures { result ≡ Load card 136 }
{
    MemoryCall::Load {
        card,
        cell: COUNTER,
    }
}

// North's write dooms south, which counts again. Then north drops a write, and north's load dooms south's.
pub(crate) fn calls() -> [MemoryCall; 18] {
    [
        MemoryCall::Begin { card: NORTH },
        read(NORTH),
        MemoryCall::Begin { card: SOUTH },
        read(SOUTH),
        write(NORTH, 1),
        write(SOUTH, 1),
        MemoryCall::Commit { card: NORTH },
        MemoryCall::Begin { card: SOUTH },
        read(SOUTH),
        write(SOUTH, 2),
        MemoryCall::Commit { card: SOUTH },
        MemoryCall::Begin { card: NORTH },
        write(NORTH, 7),
        MemoryCall::Drop { card: NORTH },
        MemoryCall::Begin { card: SOUTH },
        write(SOUTH, 8),
        load(NORTH),
        MemoryCall::Commit { card: SOUTH },
    ]
}
