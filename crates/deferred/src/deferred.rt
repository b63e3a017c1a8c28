use memory::log::Transaction;

// A memory that sets written values aside until the commit. Its cells are the standing values. Cells and transactions
// lie in arrays, since a memory is of one size and has no heap.
#[derive(Drop)]
pub struct Deferred {
    pub(crate) cells: [u16; 137],
    pub(crate) txs: [Transaction; 8],
}
