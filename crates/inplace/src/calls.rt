ghost use Rattle.std.specs.Prelude.{◌≡◌};
ghost use Rattle.memory.specs.Meaning.{cleared};
ghost use Rattle.inplace.specs.Standing.{meaning_of, holding};

use crate::inplace::InPlace;
use memory::access::Access;
use memory::fault::{MemoryFault, Refusal};
use memory::log::{Log, Transaction};
use memory::memory::Memory;
use memory::place::Place;

// How many cells a transaction may write.
const MOST_WRITES: usize = 4;

impl InPlace {
    // A memory newly made: every cell 0, no transaction. Each memory has cells and transactions of its own.
    pub fn new() -> InPlace
        ensures { meaning_of result ≡ cleared }
    {
        InPlace {
            cells: [0u16; 137],
            txs: [Transaction::Closed; 8],
        }
    }

    // What the cell itself holds, for whoever looks inside: the newest value, which may not stand yet. In the first
    // memory it is the standing one.
    pub fn held(&self, cell: usize) -> Result<u16, MemoryFault>
        ensures { result ≡ holding self.now cell }
    {
        let place = Place::new(0, cell)?;
        Ok(self.cells[place.cell])
    }
}

// Each of the nine calls is proved of this memory's meaning: what the memories share of them is in the log.
impl Memory for InPlace {
    ghost meaning = { meaning_of };

    fn clear(&mut self) {
        *self = Self::new();
    }

    fn look(&self, cell: usize) -> Result<u16, MemoryFault> {
        let place = Place::new(0, cell)?;
        Ok(self.standing(place))
    }

    fn load(&mut self, card: usize, cell: usize) -> Result<u16, MemoryFault> {
        let place = self.vacant(card, cell)?;
        let value = self.standing(place);
        self.serve(Access::Reads, place, Transaction::Closed);
        Ok(value)
    }

    fn store(&mut self, card: usize, cell: usize, value: u16) -> Result<(), MemoryFault> {
        let place = self.vacant(card, cell)?;
        self.serve(Access::Writes, place, Transaction::Closed);
        self.cells[place.cell] = value;
        Ok(())
    }

    fn begin(&mut self, card: usize) -> Result<(), MemoryFault> {
        let place = self.vacant(card, 0)?;
        self.restore(place, Transaction::Open(Log::new()));
        Ok(())
    }

    #[tactic(auto, using(crate::proofs::Opens::reads))]
    fn read(&mut self, card: usize, cell: usize) -> Result<u16, MemoryFault> {
        let place = Place::new(card, cell)?;
        let mut log = self.open(place)?;
        if log.wrote(place.cell) {
            let value = self.cells[place.cell];
            self.serve(Access::Reads, place, Transaction::Open(log));
            return Ok(value);
        }
        if let Err(refusal) = log.mark(place) {
            self.restore(place, Transaction::Closed);
            return Err(place.refuse(refusal));
        }
        let standing = self.standing(place);
        self.serve(Access::Reads, place, Transaction::Open(log));
        Ok(standing)
    }

    // The first write of a cell keeps its old value: that is in the cell only once those who had written it are doomed,
    // so it is recorded then. There is room for it, since a fifth write is refused before anybody is doomed.
    #[tactic(auto, using(crate::proofs::Firsts::firsts))]
    fn write(&mut self, card: usize, cell: usize, value: u16) -> Result<(), MemoryFault> {
        let place = Place::new(card, cell)?;
        let log = self.open(place)?;
        if log.wrote(place.cell) {
            self.serve(Access::Writes, place, Transaction::Open(log));
            self.cells[place.cell] = value;
            return Ok(());
        }
        if log.writes().len() >= MOST_WRITES {
            self.restore(place, Transaction::Closed);
            return Err(place.refuse(Refusal::Full));
        }
        self.serve(Access::Writes, place, Transaction::Open(log));
        let mut longer = log;
        longer
            .record(place, self.cells[place.cell])
            .map_err(|refusal| place.refuse(refusal))?;
        self.cells[place.cell] = value;
        self.txs[place.card] = Transaction::Open(longer);
        Ok(())
    }

    // The values are in the cells, so the old ones are let go.
    fn commit(&mut self, card: usize) -> Result<(), MemoryFault> {
        let place = Place::new(card, 0)?;
        self.open(place)?;
        self.txs[place.card] = Transaction::Closed;
        Ok(())
    }

    fn drop(&mut self, card: usize) -> Result<(), MemoryFault> {
        let place = Place::new(card, 0)?;
        match self.transaction(place) {
            Transaction::Closed => Err(place.refuse(Refusal::NoTransaction)),
            Transaction::Open(_) | Transaction::Doomed => {
                self.restore(place, Transaction::Closed);
                Ok(())
            }
        }
    }
}
