// Which node a card has, and what is stored in the cells of one that is taken. The stores take the memory and no lock:
// of a lock they would have to promise that its sizes and records stay too.
ghost use Rattle.std.specs.Prelude.{◌≡◌};
ghost use Rattle.lock.specs.Lock.{has_node, stores, entry_stores, reuse_stores, first_stage};

use crate::fault::LockFault;
use crate::values::NodeValues;
use memory::memory::Memory;
use stages::layout::{Field, State, cell_of, link_of};
use stages::stage::{Mode, ReaderEntry, Stage, WriterEntry};

// Whether a card at a stage has a node.
pub(crate) fn has_node(stage: Stage, node: u8) -> bool
    ensures { result ≡ has_node stage node }
{
    match stage {
        Stage::Idle => false,
        Stage::WriterEnters { node: held, .. }
        | Stage::ReaderEnters { node: held, .. }
        | Stage::Inside { node: held, .. }
        | Stage::Adds { node: held, .. }
        | Stage::WriterLeaves { node: held, .. }
        | Stage::ReaderLeaves { node: held, .. } => held == node,
    }
}

// The first row of an entry.
pub(crate) fn first_stage(node: u8, mode: Mode) -> Stage
    ensures { result ≡ first_stage node mode }
{
    match mode {
        Mode::Read => Stage::ReaderEnters {
            node,
            at: ReaderEntry::R1,
        },
        Mode::Write => Stage::WriterEnters {
            node,
            at: WriterEntry::W1,
        },
    }
}

// Makes a node ready to join the line: a reader's or a writer's, to wait, with nobody behind; a reader's with nobody
// ahead either.
#[tactic(auto, unfolding(memory::specs::Calls::performed))]
pub(crate) fn prepare<M: Memory>(
    memory: &mut M,
    card: usize,
    node: u8,
    mode: Mode,
) -> Result<(), LockFault>
    ensures { (result, M.meaning memory.new)
        ≡ stores card (entry_stores node mode) (M.meaning memory.old) }
{
    let me = link_of(node);
    let state = match mode {
        Mode::Read => State::Reader,
        Mode::Write => State::Writer,
    };
    memory.store(card, cell_of(me, Field::State), state as u16)?;
    memory.store(card, cell_of(me, Field::Spin), 1)?;
    memory.store(card, cell_of(me, Field::Next), 0)?;
    if let Mode::Read = mode {
        memory.store(card, cell_of(me, Field::Prev), 0)?;
    }
    Ok(())
}

// Stores any four values in a node's cells.
#[tactic(auto, unfolding(memory::specs::Calls::performed))]
pub(crate) fn fill<M: Memory>(
    memory: &mut M,
    card: usize,
    node: u8,
    values: NodeValues,
) -> Result<(), LockFault>
    ensures { (result, M.meaning memory.new)
        ≡ stores card (reuse_stores node values) (M.meaning memory.old) }
{
    let me = link_of(node);
    memory.store(card, cell_of(me, Field::Next), values.next)?;
    memory.store(card, cell_of(me, Field::Prev), values.prev)?;
    memory.store(card, cell_of(me, Field::State), values.state)?;
    memory.store(card, cell_of(me, Field::Spin), values.spin)?;
    Ok(())
}
