// How a step moves a card.
ghost use Rattle.std.specs.Prelude.{◌≡◌};
ghost use Rattle.lock.specs.Lock.{advanced};

use crate::fault::LockFault;
use memory::fault::{MemoryFault, Refusal};
use stages::answer::Answer;
use stages::rows::begin_of;
use stages::stage::{Card, Stage};

// Moves a card by its stage and the memory's outcome together, in one match, so that no pair of the two is forgotten. A
// lost transaction starts again on the same node; any other refusal leaves the card where it is and passes up whole.
pub(crate) fn advance(
    card: &mut Card,
    outcome: Result<u16, MemoryFault>,
) -> Result<Answer, LockFault>
    ensures { (card.new.stage, result) ≡ advanced card.old.stage outcome }
{
    let answer;
    (card.stage, answer) = match (card.stage, outcome) {
        (stage, Err(fault)) => match fault.refusal {
            Refusal::Doomed => (begin_of(stage), Answer::Lost),
            _ => return Err(LockFault::Memory { fault }),
        },
        (Stage::WriterEnters { node, at }, Ok(value)) => at.goes(node, value),
        (Stage::ReaderEnters { node, at }, Ok(value)) => at.goes(node, value),
        (Stage::Adds { node, at }, Ok(value)) => at.goes(node, value),
        (Stage::WriterLeaves { node, at }, Ok(value)) => at.goes(node, value),
        (Stage::ReaderLeaves { node, at }, Ok(value)) => at.goes(node, value),
        (Stage::Idle | Stage::Inside { .. }, Ok(_)) => return Err(LockFault::NotAllowed),
    };
    Ok(answer)
}
