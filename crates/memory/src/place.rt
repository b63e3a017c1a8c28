ghost use Rattle.std.specs.Prelude.{◌≡◌, ◌<◌, true, false, MatchResult};
ghost use Rattle.memory.specs.declared.fault.Refusal.TheVariants.{OutOfRange};
ghost use Rattle.memory.specs.Meaning.{in_range};

use crate::fault::{MemoryFault, Refusal};

// How many cards and cells every memory has.
const CARDS: usize = 8;

const CELLS: usize = 137;

// The place of a call: a card and a cell that every memory has.
#[derive(Clone, Copy)]
pub struct Place {
    pub card: usize,
    pub cell: usize,
    pub ghost within: { (card < 8) × (cell < 137) },
}

impl Place {
    // Refuses a card or a cell that no memory has. A cell number of any size is judged as it stands.
    pub fn new(card: usize, cell: usize) -> Result<Place, MemoryFault>
        ensures { MatchResult result
            (λ place. (in_range card cell ≡ true) × (place.card ≡ card) × (place.cell ≡ cell))
            (λ fault. (in_range card cell ≡ false)
            × (fault ≡ record { refusal = OutOfRange; card = card; cell = cell })) }
    {
        if card >= CARDS || cell >= CELLS {
            return Err(Refusal::OutOfRange.at(card, cell));
        }
        Ok(Place { card, cell })
    }

    // The refusal of a call at the place.
    pub fn refuse(self, refusal: Refusal) -> MemoryFault
        ensures { result ≡ record { refusal = refusal; card = self.card; cell = self.cell } }
    {
        refusal.at(self.card, self.cell)
    }
}
