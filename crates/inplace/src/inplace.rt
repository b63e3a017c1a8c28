ghost use Rattle.std.specs.Prelude.{◌≡◌, true, length};
ghost use Rattle.inplace.specs.Undo.{distinct, undoes};

use memory::log::Transaction;

// A memory that puts written values into the cells at once. A log keeps the old values, which still stand, until
// the commit. No two kept values are of one cell, so that putting them back is exact. Cells and transactions lie in
// arrays, since a memory is of one size and has no heap.
#[derive(Drop)]
pub struct InPlace {
    pub(crate) cells: [u16; 137],
    pub(crate) txs: [Transaction; 8],
    ghost eight: { length txs ≡ 8 },
    ghost apart: { distinct (undoes txs) ≡ true },
}
