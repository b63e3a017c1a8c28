ghost use Rattle.std.specs.Prelude.{◌≡◌, Ok, Some};
ghost use Rattle.memory.specs.declared.fault.Refusal.TheVariants.{Doomed};

use memory::fault::{MemoryFault, Refusal};
use memory::memory::Memory;
use std::io;

// Two cards, north and south, each saw one car. They count on the same cell, each in a transaction of its own.
pub(crate) const NORTH: usize = 0;

pub(crate) const SOUTH: usize = 1;

pub(crate) const COUNTER: usize = 136;

// What the cards saw, and what stood in the counter.
#[derive(Drop)]
pub(crate) struct Story {
    pub(crate) north_reads: u16,
    pub(crate) south_reads: u16,
    pub(crate) stands_after_write: u16,
    pub(crate) south_refused: Option<Refusal>,
    pub(crate) stands_after_north: u16,
    pub(crate) south_reads_again: u16,
    pub(crate) stands_at_end: u16,
}

// Both cards read the counter before one of them writes. The one that is slower is doomed, and counts again.
pub(crate) fn count_both<M: Memory>(memory: &mut M) -> Result<Story, MemoryFault>
    ensures { result ≡ Ok (record {
      north_reads = 0;
      south_reads = 0;
      stands_after_write = 0;
      south_refused = Some Doomed;
      stands_after_north = 1;
      south_reads_again = 1;
      stands_at_end = 2;
    }) }
{
    memory.clear();
    memory.begin(NORTH)?;
    let north_reads = memory.read(NORTH, COUNTER)?;
    memory.begin(SOUTH)?;
    let south_reads = memory.read(SOUTH, COUNTER)?;
    memory.write(NORTH, COUNTER, north_reads.saturating_add(1))?;
    let stands_after_write = memory.look(COUNTER)?;
    let slower = memory.write(SOUTH, COUNTER, south_reads.saturating_add(1));
    let south_refused = slower.err().map(|fault| fault.refusal);
    memory.commit(NORTH)?;
    let stands_after_north = memory.look(COUNTER)?;
    memory.begin(SOUTH)?;
    let south_reads_again = memory.read(SOUTH, COUNTER)?;
    memory.write(SOUTH, COUNTER, south_reads_again.saturating_add(1))?;
    memory.commit(SOUTH)?;
    let stands_at_end = memory.look(COUNTER)?;
    Ok(Story {
        north_reads,
        south_reads,
        stands_after_write,
        south_refused,
        stands_after_north,
        south_reads_again,
        stands_at_end,
    })
}

// Tells what happened, for whoever stands at the cabinet.
pub(crate) fn tell(rt: HostRuntime, story: &Story) -> io::Result<()> {
    println!(rt; "North and south each saw a car. Both count on cell {COUNTER}.")?;
    println!(rt;
        "North begins a transaction and reads {}.",
        story.north_reads
    )?;
    println!(rt;
        "South begins a transaction and reads {}.",
        story.south_reads
    )?;
    println!(rt;
        "North writes one more. The counter stands at {}.",
        story.stands_after_write
    )?;
    if let Some(refusal) = story.south_refused {
        println!(rt;
            "That doomed south: its write is refused with {}, and its transaction is gone.",
            refusal.number()
        )?;
    }
    println!(rt;
        "North commits. The counter stands at {}.",
        story.stands_after_north
    )?;
    println!(rt; "South begins again and reads {}.", story.south_reads_again)?;
    println!(rt;
        "South writes one more and commits. The counter stands at {}.",
        story.stands_at_end
    )?;
    println!(rt; "Two cars, each counted once.")
}
