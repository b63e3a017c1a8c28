ghost use Rattle.std.specs.Prelude.{◌≡◌, ℕ, ◌<◌, length, IfSome};
ghost use Rattle.memory.specs.Meaning.{seek};

use crate::write::Write;

// A record that has a cell number, as a mark or a write.
pub trait Celled {
    ghost place: { Self → ℕ };

    fn cell(&self) -> usize
        ensures { result ≡ place self.now };
}

// A mark is the number of its cell.
impl Celled for u8 {
    ghost place = { λ mark. mark };

    fn cell(&self) -> usize {
        usize::from(*self)
    }
}

impl Celled for Write {
    ghost place = { λ w. w.cell };

    fn cell(&self) -> usize {
        usize::from(self.cell)
    }
}

// The place of the first record of the cell: the one search, for records of every kind.
pub fn find<T: Celled>(items: &[T], cell: usize) -> Option<usize>
    ensures first { result ≡ seek T.place cell 0 items.now }
    ensures within { IfSome result (λ i. i < length items.now) }
{
    items.iter().position(|item| item.cell() == cell)
}
