ghost use Rattle.std.specs.Prelude.{◌≡◌, ◌≤◌, [], length, ⊤};

use crate::fault::Refusal;
use crate::search::{Celled, find};
use std::alloc::AllocError;

// At most four records, in the order in which they came. A type of our own and no `ArrayVec`: transactions are copied
// out of a table, so this one is Copy and counts in one byte.
#[derive(Copy)]
pub struct Few<T> {
    pub(crate) items: [T; 4],
    pub(crate) count: u8,
    ghost few: { count ≤ 4 },
}

// Written out, since none is derived for a type that has both a parameter and an invariant.
impl<T: Copy> Clone for Few<T> {
    ghost is_clone = { λ few copy. copy ≡ few };

    ghost is_infallible = { λ _. ⊤ };

    // A copy, since a record is Copy.
    fn clone(&self) -> Result<Few<T>, AllocError> {
        Ok(*self)
    }
}

impl<T: Copy> Few<T> {
    ghost use Rattle.memory.specs.Few.{items_of, fitted, room};

    // No records; the blank one fills the places that are free.
    pub fn none(blank: T) -> Few<T>
        ensures { items_of result ≡ [] }
    {
        Few {
            items: [blank; 4],
            count: 0,
        }
    }

    // The records.
    pub fn as_slice(&self) -> &[T]
        ensures value { result.now ≡ items_of self.now }
        ensures len { length result.now ≡ self.now.count }
    {
        &self.items[..usize::from(self.count)]
    }

    // Puts one more at the end; refuses a fifth.
    pub fn push(&mut self, item: T) -> Result<(), Refusal>
        ensures { (result, items_of self.new) ≡ fitted (items_of self.old) (room (items_of self.old) item) }
    {
        let at = usize::from(self.count);
        if at >= self.items.len() {
            return Err(Refusal::Full);
        }
        self.items[at] = item;
        self.count += 1;
        Ok(())
    }
}

impl<T: Celled + Copy> Few<T> {
    ghost use Rattle.memory.specs.Few.{items_of};
    ghost use Rattle.memory.specs.Meaning.{has};

    // Whether one of the records is of the cell.
    #[tactic(auto, using(crate::proofs::Seeks::seek_has))]
    pub fn has(&self, cell: usize) -> bool
        ensures { result ≡ has T.place (items_of self.now) cell }
    {
        find(self.as_slice(), cell).is_some()
    }
}

impl Few<u8> {
    ghost use Rattle.memory.specs.Few.{items_of, fitted};
    ghost use Rattle.memory.specs.Meaning.{marking};

    // Marks the cell, once.
    pub fn mark(&mut self, cell: u8) -> Result<(), Refusal>
        ensures { (result, items_of self.new) ≡ fitted (items_of self.old) (marking (items_of self.old) cell) }
    {
        if self.has(usize::from(cell)) {
            return Ok(());
        }
        self.push(cell)
    }
}
