// Requests of five numbers: their form, resends, and what is remembered. Each call promises that the sizes stay, as the
// others do.
ghost use Rattle.std.specs.Prelude.{◌≡◌};
ghost use Rattle.door.specs.Door.{understood, resent, served, asked};
ghost use Rattle.door.specs.Doors.{door_state, door_size};
ghost use Rattle.lock.specs.Locks.{lock_state};

use crate::door::Door;
use crate::fault::DoorFault;
use crate::request::{Kind, Memo, Remembered, Request};
use lock::fault::LockFault;
use memory::memory::Memory;
use stages::answer::Answer;
use stages::stage::Mode;

// The request that a kind and two numbers make; an unused number has to be 0.
fn understand(toggle: u16, kind: u16, first: u16, second: u16) -> Result<Request, DoorFault>
    ensures { result ≡ understood toggle kind first second }
{
    if toggle > 1 {
        return Err(DoorFault::Malformed);
    }
    match (Kind::try_from(kind)?, first, second) {
        (Kind::EnterToRead, node, 0) => Ok(Request::Enter {
            mode: Mode::Read,
            node,
        }),
        (Kind::EnterToWrite, node, 0) => Ok(Request::Enter {
            mode: Mode::Write,
            node,
        }),
        (Kind::Leave, 0, 0) => Ok(Request::Leave),
        (Kind::Add, counter, amount) => Ok(Request::Add { counter, amount }),
        (Kind::Show, counter, 0) => Ok(Request::Show { counter }),
        _ => Err(DoorFault::Malformed),
    }
}

impl Memo {
    // The answer to a request with the toggle of the last one: the remembered answer, if it is the same request.
    fn resend(self, request: Request) -> Result<Answer, DoorFault>
        ensures { result ≡ resent self.last request }
    {
        match self.last {
            Some(last) if last.request == request => Ok(last.answer?),
            _ => Err(DoorFault::Differs),
        }
    }
}

impl<M: Memory> Door<M> {
    // What the lock does on a request, which is a value, as the door remembers it and holds a resend against it.
    fn serve(&mut self, card: usize, request: Request) -> Result<Answer, LockFault>
        ensures moves { (result, lock_state M.meaning self.new.lock)
            ≡ served (door_size self.old) (lock_state M.meaning self.old.lock) card request }
        ensures same { self.new.lock.sizes ≡ self.old.lock.sizes }
        ensures kept { self.new.memos ≡ self.old.memos }
    {
        match request {
            Request::Enter { mode, node } => self.lock.enter(card, mode, node),
            Request::Leave => self.lock.leave(card),
            Request::Add { counter, amount } => self.lock.add(card, counter, amount),
            Request::Show { counter } => self.lock.show(card, counter),
        }
    }

    // Judges a request, which comes from outside as five numbers. One with the toggle of the card's last is a resend:
    // it gets that answer and nothing happens, or it differs and is refused. Any other goes to the lock and is
    // remembered with its answer, a refusal too.
    pub fn request(
        &mut self,
        card: u16,
        toggle: u16,
        kind: u16,
        first: u16,
        second: u16,
    ) -> Result<Answer, DoorFault>
        ensures moves { (result, door_state M.meaning self.new)
            ≡ asked (door_size self.old) (door_state M.meaning self.old)
            card toggle kind first second }
        ensures same { self.new.lock.sizes ≡ self.old.lock.sizes }
    {
        let card = usize::from(card);
        if !self.lock.sizes().has_card(card) {
            return Err(DoorFault::Lock {
                fault: LockFault::NoCard,
            });
        }
        let request = understand(toggle, kind, first, second)?;
        let memo = self.memos[card];
        if memo.toggle == toggle {
            return memo.resend(request);
        }
        let answer = self.serve(card, request);
        self.memos[card] = Memo {
            toggle,
            last: Some(Remembered { request, answer }),
        };
        Ok(answer?)
    }
}
