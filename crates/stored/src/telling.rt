// The schedules that standard input names.
use crate::holding::holds;
use std::fs;

// Says of each schedule that standard input names, one a line, whether NAME.in prints what NAME.out has on both
// memories, and how many do. No contract can speak of what is read and printed, so this has none.
pub fn run(rt: HostRuntime) -> anyhow::Result<()> {
    let heap = rt.alloc();
    let mut alike = 0u32;
    for line in rt.lines(heap) {
        let name = line?;
        let text = fs::read(&rt, format!(in heap; "{name}.in")?)?;
        let wanted = fs::read(&rt, format!(in heap; "{name}.out")?)?;
        if holds(heap, text.as_slice(), wanted.as_slice())? {
            alike = alike.saturating_add(1);
            println!(rt; "{name} ok")?;
        } else {
            println!(rt; "{name} differs")?;
        }
    }
    println!(rt; "{alike} schedules ran alike on both memories")?;
    Ok(())
}
