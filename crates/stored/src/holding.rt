// One schedule against its stored output.
ghost use Rattle.std.specs.Prelude.{IfOk, Decides};
ghost use Rattle.runner.specs.Prints.{Prints};

use deferred::deferred::Deferred;
use inplace::inplace::InPlace;
use memory::memory::Memory;
use std::alloc::{AllocError, Global};

// Whether a text prints what is wanted on a memory.
fn prints<M: Memory + Drop>(
    heap: Global,
    memory: M,
    text: &[u8],
    wanted: &[u8],
) -> Result<bool, AllocError>
    ensures { IfOk result (λ b. Decides b (Prints text.now wanted.now)) }
{
    let out = runner::run(heap, memory, text)?;
    Ok(out.as_bytes() == wanted)
}

// Whether a text prints what is wanted on both memories.
pub fn holds(heap: Global, text: &[u8], wanted: &[u8]) -> Result<bool, AllocError>
    ensures { IfOk result (λ b. Decides b (Prints text.now wanted.now)) }
{
    let deferred = prints(heap, Deferred::new(), text, wanted)?;
    let inplace = prints(heap, InPlace::new(), text, wanted)?;
    Ok(deferred && inplace)
}

#[cfg(test)]
mod tests {
    use super::*;
    use std::test::Fail;

    #[test]
    fn a_board_without_events(rt: HostRuntime) -> Result<(), Fail> {
        let heap = rt.alloc();
        assert!(rt; holds(heap, b"3\n1\n1\n1\n0\n", b"queue\n")?);
        assert!(rt; !holds(heap, b"3\n1\n1\n1\n0\n", b"queue 0\n")?);
        Ok(())
    }
}
