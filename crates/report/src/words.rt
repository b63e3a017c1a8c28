// The words of what a call answered.
ghost use Rattle.std.specs.Prelude.{Some};
ghost use Rattle.report.specs.Texts.{words};

use door::fault::DoorFault;
use lock::fault::LockFault;
use stages::answer::Answer;
use std::fmt;

// What a call gave. `Result` is std's and `Answer` the stages', so their words belong to a type of this crate. Refusals
// 2 to 7 are one text each, with the number in it: written apart, the number takes longer and asks for room once more.
#[derive(Drop)]
pub struct Outcome(pub Result<Answer, DoorFault>);

impl fmt::Display for Outcome {
    ghost output = { λ o. Some (words o.0) };

    fn fmt<W: fmt::Write>(&self, f: &mut fmt::Formatter<W>) -> fmt::Result {
        match self.0 {
            Ok(Answer::Done) => write!(f, "ok"),
            Ok(Answer::Step) => write!(f, "step"),
            Ok(Answer::Wait) => write!(f, "wait"),
            Ok(Answer::Lost) => write!(f, "lost"),
            Ok(Answer::In) => write!(f, "in"),
            Ok(Answer::Out) => write!(f, "out"),
            Ok(Answer::Added { count }) => write!(f, "added {count}"),
            Ok(Answer::Count { count }) => write!(f, "count {count}"),
            Err(DoorFault::Malformed) => write!(f, "refused 3"),
            Err(DoorFault::Differs) => write!(f, "refused 4"),
            Err(DoorFault::Lock { fault }) => match fault {
                LockFault::NoCard => write!(f, "refused 2"),
                LockFault::NotAllowed => write!(f, "refused 5"),
                LockFault::NoPlace => write!(f, "refused 6"),
                LockFault::NotFree => write!(f, "refused 7"),
                LockFault::Memory { fault } => {
                    let number = fault.refusal.number();
                    let cell = fault.cell;
                    write!(f, "refused 8 {number} {cell}")
                }
            },
        }
    }
}
