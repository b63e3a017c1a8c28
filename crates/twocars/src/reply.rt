// What a memory's answer says. A type of our own and no Result, since only std may say how a Result is printed.
ghost use Rattle.std.specs.Prelude.{◌≡◌, Some};
ghost use Rattle.twocars.specs.Replies.{reply_text, replied};

use memory::call::MemoryCall;
use memory::fault::{MemoryFault, Refusal};
use std::fmt;

#[derive(Clone, Copy)]
pub enum Reply {
    // accepted, by a call that answers no number
    Done,
    Value(u16),
    Refused(Refusal),
}

impl Reply {
    // What a call got.
    pub(crate) fn to(call: MemoryCall, answer: Result<u16, MemoryFault>) -> Reply {
        match call {
            MemoryCall::Look { .. } | MemoryCall::Load { .. } | MemoryCall::Read { .. } => {
                Reply::from(answer)
            }
            _ => answer.map_or_else(|fault| Reply::Refused(fault.refusal), |_| Reply::Done),
        }
    }
}

// A value that was asked for, or why there is none.
impl From<Result<u16, MemoryFault>> for Reply {
    ghost from_gives = { λ answer r. r ≡ replied answer };

    fn from(answer: Result<u16, MemoryFault>) -> Reply {
        match answer {
            Ok(value) => Reply::Value(value),
            Err(fault) => Reply::Refused(fault.refusal),
        }
    }
}

impl fmt::Display for Reply {
    ghost output = { λ r. Some (reply_text r) };

    fn fmt<W: fmt::Write>(&self, f: &mut fmt::Formatter<W>) -> fmt::Result {
        match *self {
            Reply::Done => write!(f, "ok"),
            Reply::Value(value) => write!(f, "{value}"),
            Reply::Refused(refusal) => {
                let number = refusal.number();
                write!(f, "refused {number}")
            }
        }
    }
}
