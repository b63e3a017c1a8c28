ghost use Rattle.std.specs.Prelude.{◌≡◌};
ghost use Rattle.memory.specs.Logs.{Vacant};
ghost use Rattle.memory.specs.Meaning.{cleared, looking};
ghost use Rattle.deferred.specs.Deferral.{meaning_of};

use crate::deferred::Deferred;
use crate::doom::doom;
use crate::own_tx;
use memory::access::Access;
use memory::fault::{MemoryFault, Refusal};
use memory::land::land;
use memory::log::{Log, Transaction};
use memory::memory::Memory;
use memory::place::Place;
use std::mem;

impl Deferred {
    // A memory newly made: every cell 0, no transaction. Each memory has cells and transactions of its own.
    pub fn new() -> Deferred
        ensures { meaning_of result ≡ cleared }
    {
        Deferred {
            cells: [0u16; 137],
            txs: [Transaction::Closed; 8],
        }
    }

    // What the cell itself holds, for whoever looks inside: here it is always the standing value.
    pub fn held(&self, cell: usize) -> Result<u16, MemoryFault>
        ensures { result ≡ looking (meaning_of self.now) cell }
    {
        let place = Place::new(0, cell)?;
        Ok(self.cells[place.cell])
    }

    // The place of a call that wants no transaction; each memory proves it of its own meaning.
    fn vacant(&self, card: usize, cell: usize) -> Result<Place, MemoryFault>
        ensures { Vacant (meaning_of self.now) card cell result }
    {
        let place = Place::new(card, cell)?;
        self.txs[place.card]
            .closed()
            .map_err(|refusal| place.refuse(refusal))?;
        Ok(place)
    }
}

// Each of the nine calls is proved of this memory's meaning: what the memories share of them is in the log.
impl Memory for Deferred {
    ghost meaning = { meaning_of };

    fn clear(&mut self) {
        *self = Self::new();
    }

    fn look(&self, cell: usize) -> Result<u16, MemoryFault> {
        self.held(cell)
    }

    fn load(&mut self, card: usize, cell: usize) -> Result<u16, MemoryFault> {
        let place = self.vacant(card, cell)?;
        let value = self.cells[place.cell];
        doom(&mut self.txs, place, Access::Reads);
        Ok(value)
    }

    fn store(&mut self, card: usize, cell: usize, value: u16) -> Result<(), MemoryFault> {
        let place = self.vacant(card, cell)?;
        doom(&mut self.txs, place, Access::Writes);
        self.cells[place.cell] = value;
        Ok(())
    }

    #[tactic(auto, using(crate::proofs::Own::parts))]
    fn begin(&mut self, card: usize) -> Result<(), MemoryFault> {
        let place = self.vacant(card, 0)?;
        self.txs[place.card] = Transaction::Open(Log::new());
        Ok(())
    }

    #[tactic(auto, using(crate::proofs::Own::parts))]
    fn read(&mut self, card: usize, cell: usize) -> Result<u16, MemoryFault> {
        let place = Place::new(card, cell)?;
        let standing = self.cells[cell];
        let value = own_tx::read(&mut self.txs[card], place, standing).map_err(
            |refusal| place.refuse(refusal),
        )?;
        doom(&mut self.txs, place, Access::Reads);
        Ok(value)
    }

    #[tactic(auto, using(crate::proofs::Own::parts))]
    fn write(&mut self, card: usize, cell: usize, value: u16) -> Result<(), MemoryFault> {
        let place = Place::new(card, cell)?;
        own_tx::write(&mut self.txs[card], place, value).map_err(|refusal| place.refuse(refusal))?;
        doom(&mut self.txs, place, Access::Writes);
        Ok(())
    }

    #[tactic(auto, using(crate::proofs::Own::parts))]
    fn commit(&mut self, card: usize) -> Result<(), MemoryFault> {
        let place = Place::new(card, 0)?;
        let log = own_tx::take(&mut self.txs[place.card]).map_err(|refusal| place.refuse(refusal))?;
        land(&mut self.cells, log.writes());
        Ok(())
    }

    #[tactic(auto, using(crate::proofs::Own::parts))]
    fn drop(&mut self, card: usize) -> Result<(), MemoryFault> {
        let place = Place::new(card, 0)?;
        match mem::replace(&mut self.txs[place.card], Transaction::Closed) {
            Transaction::Closed => Err(place.refuse(Refusal::NoTransaction)),
            Transaction::Open(_) | Transaction::Doomed => Ok(()),
        }
    }
}
