ghost use Rattle.std.specs.Prelude.{◌≡◌};
ghost use Rattle.door.specs.Kinds.{kind_number, Names};

use crate::fault::DoorFault;
use lock::fault::LockFault;
use stages::answer::Answer;
use stages::stage::Mode;

// A request's kind. Outside it is a number: the one beside its name.
#[derive(Clone, Copy)]
pub enum Kind {
    EnterToRead = 1,
    EnterToWrite = 2,
    Leave = 3,
    Add = 4,
    Show = 5,
}

impl Kind {
    // The number of the kind outside.
    pub fn number(self) -> u16
        ensures { result ≡ kind_number self }
    {
        self as u16
    }
}

// A number that no kind has makes a request malformed.
impl TryFrom<u16> for Kind {
    type Error = DoorFault;

    ghost try_from_gives = { Names };

    fn try_from(number: u16) -> Result<Kind, DoorFault> {
        match number {
            1 => Ok(Kind::EnterToRead),
            2 => Ok(Kind::EnterToWrite),
            3 => Ok(Kind::Leave),
            4 => Ok(Kind::Add),
            5 => Ok(Kind::Show),
            _ => Err(DoorFault::Malformed),
        }
    }
}

// What a card asks for.
#[derive(Clone, Copy, PartialEq, Eq)]
pub enum Request {
    Enter { mode: Mode, node: u16 },
    Leave,
    Add { counter: u16, amount: u16 },
    Show { counter: u16 },
}

// A request that the lock was asked, and what it answered.
#[derive(Clone, Copy)]
pub struct Remembered {
    pub request: Request,
    pub answer: Result<Answer, LockFault>,
}

// What the door remembers of a card: the toggle of its last request that was neither malformed nor a resend, and that
// request. On a new board the toggle is 1 and there is no request, so that no request is taken for a resend.
#[derive(Clone, Copy)]
pub struct Memo {
    pub toggle: u16,
    pub last: Option<Remembered>,
}
