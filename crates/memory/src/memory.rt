ghost use Rattle.std.specs.Prelude.{◌≡◌};
ghost use Rattle.memory.specs.Meaning.{Meaning, cleared, looking, loading, storing};
ghost use Rattle.memory.specs.Meaning.{beginning, reading, writing, committing, dropping};

use crate::fault::MemoryFault;

// A memory of 137 cells for eight cards, by its meaning. Whatever stands on a memory is proved against these
// clauses alone, so it holds on every memory that keeps them.
pub trait Memory {
    ghost meaning: { Self → Meaning };

    // Makes every cell 0 and closes every transaction.
    fn clear(&mut self)
        ensures { meaning self.new ≡ cleared };

    // The standing value of a cell.
    fn look(&self, cell: usize) -> Result<u16, MemoryFault>
        ensures { result ≡ looking (meaning self.now) cell };

    // The standing value of a cell, for a card without a transaction.
    fn load(&mut self, card: usize, cell: usize) -> Result<u16, MemoryFault>
        ensures answer { result ≡ (loading (meaning self.old) card cell).answer }
        ensures after { meaning self.new ≡ (loading (meaning self.old) card cell).after };

    // Replaces the standing value of a cell, for a card without a transaction.
    fn store(&mut self, card: usize, cell: usize, value: u16) -> Result<(), MemoryFault>
        ensures answer { result ≡ (storing (meaning self.old) card cell value).answer }
        ensures after { meaning self.new ≡ (storing (meaning self.old) card cell value).after };

    // Opens a transaction with no marks and no writes.
    fn begin(&mut self, card: usize) -> Result<(), MemoryFault>
        ensures answer { result ≡ (beginning (meaning self.old) card).answer }
        ensures after { meaning self.new ≡ (beginning (meaning self.old) card).after };

    // Reads a cell in the card's transaction.
    fn read(&mut self, card: usize, cell: usize) -> Result<u16, MemoryFault>
        ensures answer { result ≡ (reading (meaning self.old) card cell).answer }
        ensures after { meaning self.new ≡ (reading (meaning self.old) card cell).after };

    // Records a value for a cell in the card's transaction.
    fn write(&mut self, card: usize, cell: usize, value: u16) -> Result<(), MemoryFault>
        ensures answer { result ≡ (writing (meaning self.old) card cell value).answer }
        ensures after { meaning self.new ≡ (writing (meaning self.old) card cell value).after };

    // Makes all recorded values standing and closes the transaction.
    fn commit(&mut self, card: usize) -> Result<(), MemoryFault>
        ensures answer { result ≡ (committing (meaning self.old) card).answer }
        ensures after { meaning self.new ≡ (committing (meaning self.old) card).after };

    // Closes the transaction, open or doomed, and changes no standing value.
    fn drop(&mut self, card: usize) -> Result<(), MemoryFault>
        ensures answer { result ≡ (dropping (meaning self.old) card).answer }
        ensures after { meaning self.new ≡ (dropping (meaning self.old) card).after };
}
