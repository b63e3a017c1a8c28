ghost use Rattle.std.specs.Prelude.{◌≡◌};
ghost use Rattle.memory.specs.Numbers.{number};

// Why a memory refuses a call, in the order of judging, each with the number by which it is known outside.
#[derive(Clone, Copy)]
pub enum Refusal {
    // a cell or a card that no memory has
    OutOfRange = 21,
    // the card has a transaction, open or doomed
    Already = 22,
    // the card has no transaction
    NoTransaction = 23,
    // the card's transaction is doomed
    Doomed = 24,
    // a fifth mark or a fifth write
    Full = 25,
}

impl Refusal {
    // The number of the refusal.
    pub fn number(self) -> u16
        ensures { result ≡ number self }
    {
        self as u16
    }

    // The refusal of a call by the card at the cell.
    pub fn at(self, card: usize, cell: usize) -> MemoryFault
        ensures { result ≡ record { refusal = self; card = card; cell = cell } }
    {
        MemoryFault {
            refusal: self,
            card,
            cell,
        }
    }
}

// A refusal with the card and the cell of the call, 0 where it has none.
#[derive(Clone, Copy)]
pub struct MemoryFault {
    pub refusal: Refusal,
    pub card: usize,
    pub cell: usize,
}
