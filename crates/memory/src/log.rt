use crate::few::Few;
use crate::write::Write;

// What an open transaction keeps: the cells that it has read, and a write for each cell that it has written. Which
// value the write has, the new one or the old, is the memory's affair.
#[derive(Clone, Copy)]
pub struct Log {
    pub(crate) marks: Few<u8>,
    pub(crate) writes: Few<Write>,
}

// A card's transaction.
#[derive(Clone, Copy)]
pub enum Transaction {
    Closed,
    Open(Log),
    Doomed,
}
