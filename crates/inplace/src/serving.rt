ghost use Rattle.std.specs.Prelude.{◌≡◌, ◌<◌, [], map, slice_index_or};
ghost use Rattle.memory.specs.Logs.{Vacant};
ghost use Rattle.memory.specs.Meaning.{standing, with_tx, served};
ghost use Rattle.inplace.specs.Undo.{undo_of, written, tx_in};
ghost use Rattle.inplace.specs.Standing.{meaning_of, Fetched, Opened};

use crate::inplace::InPlace;
use crate::undo::doom;
use memory::access::Access;
use memory::fault::{MemoryFault, Refusal};
use memory::land::land;
use memory::log::{Log, Transaction};
use memory::place::Place;

impl InPlace {
    // The card's transaction.
    pub(crate) fn transaction(&self, place: Place) -> Transaction
        ensures { Fetched self.now place result }
    {
        self.txs[place.card]
    }

    // The place of a call that wants no transaction; each memory proves it of its own meaning.
    pub(crate) fn vacant(&self, card: usize, cell: usize) -> Result<Place, MemoryFault>
        ensures { Vacant (meaning_of self.now) card cell result }
    {
        let place = Place::new(card, cell)?;
        self.transaction(place)
            .closed()
            .map_err(|refusal| place.refuse(refusal))?;
        Ok(place)
    }

    // The log of the card's open transaction; the refusal of a doomed one closes it. The log stays where it is, since
    // its old values still stand; where values are set aside it is taken out.
    pub(crate) fn open(&mut self, place: Place) -> Result<Log, MemoryFault>
        ensures { Opened self.old self.new place result }
    {
        match self.transaction(place) {
            Transaction::Closed => Err(place.refuse(Refusal::NoTransaction)),
            Transaction::Open(log) => Ok(log),
            Transaction::Doomed => {
                self.restore(place, Transaction::Closed);
                Err(place.refuse(Refusal::Doomed))
            }
        }
    }

    // The standing value: the old one that a transaction keeps, or else what is in the cell.
    pub(crate) fn standing(&self, place: Place) -> u16
        ensures { result ≡ standing (meaning_of self.now) place.cell }
    {
        // No `find_map`: no lemma ties what it finds to a list. `find` would ask each log twice.
        for tx in &self.txs {
            if let Some(old) = tx.value_of(place.cell) {
                return old;
            }
        }
        self.cells[place.cell]
    }

    // Puts back what the card's transaction has written, and gives the card one that has written nothing.
    #[tactic(auto, using(crate::proofs::Restores::restores))]
    pub(crate) fn restore(&mut self, place: Place, to: Transaction)
        requires bare { undo_of to ≡ [] }
        ensures { meaning_of self.new
            ≡ with_tx (meaning_of self.old) place.card (tx_in self.old.cells to) }
    {
        let tx = self.txs[place.card];
        land(&mut self.cells, tx.writes());
        self.txs[place.card] = to;
    }

    // An accepted access: the transactions of others that it goes against are doomed, and the card has its own,
    // which keeps the same old values as before.
    pub(crate) fn serve(&mut self, how: Access, place: Place, own: Transaction)
        requires same { undo_of (slice_index_or self.old.txs place.card Transaction.Closed) ≡ undo_of own }
        ensures own { slice_index_or self.new.txs place.card Transaction.Closed ≡ own }
        ensures written { map (written self.new.cells) (undo_of own)
            ≡ map (written self.old.cells) (undo_of own) }
        ensures after { meaning_of self.new
            ≡ served how place.card place.cell (tx_in self.old.cells own) (meaning_of self.old) }
    {
        doom(&mut self.cells, &mut self.txs, place, how);
        self.txs[place.card] = own;
    }
}
