// The memory calls of the rows, named as the table of steps names them: a row is one line by these, and would be six
// with the names of a call's fields.
ghost use Rattle.std.specs.Prelude.{◌≡◌};
ghost use Rattle.memory.specs.declared.call.MemoryCall.TheVariants as call;

use memory::call::MemoryCall;

pub(crate) fn load(card: usize, cell: usize) -> MemoryCall
    ensures { result ≡ call.Load card cell }
{
    MemoryCall::Load { card, cell }
}

pub(crate) fn store(card: usize, cell: usize, value: u16) -> MemoryCall
    ensures { result ≡ call.Store card cell value }
{
    MemoryCall::Store { card, cell, value }
}

pub(crate) fn read(card: usize, cell: usize) -> MemoryCall
    ensures { result ≡ call.Read card cell }
{
    MemoryCall::Read { card, cell }
}

pub(crate) fn write(card: usize, cell: usize, value: u16) -> MemoryCall
    ensures { result ≡ call.Write card cell value }
{
    MemoryCall::Write { card, cell, value }
}
