// Events of a schedule as calls of a board.
ghost use Rattle.std.specs.Prelude.{◌≡◌};
ghost use Rattle.door.specs.declared.call.Call.TheVariants.{Request};
ghost use Rattle.door.specs.Kinds.{kind_number};
ghost use Rattle.runner.specs.Calls.{call_of_event};

use door::call::Call;
use door::request::Kind;
use lock::values::NodeValues;
use schedule::Event;

// A request of a kind and two numbers; a call's fields have names, and lines of them would hide the table below.
fn request(card: u16, toggle: u16, kind: Kind, first: u16, second: u16) -> Call
    ensures { result ≡ Request card toggle (kind_number kind) first second }
{
    Call::Request {
        card,
        toggle,
        kind: kind.number(),
        first,
        second,
    }
}

// The call that an event line asks for; the unused numbers of a request are 0. No From, since an event is textline's
// and a call the door's.
pub fn call_of(event: Event) -> Call
    ensures { result ≡ call_of_event event }
{
    match event {
        Event::Read { card, toggle, node } => request(card, toggle, Kind::EnterToRead, node, 0),
        Event::Write { card, toggle, node } => request(card, toggle, Kind::EnterToWrite, node, 0),
        Event::Leave { card, toggle } => request(card, toggle, Kind::Leave, 0, 0),
        Event::Add {
            card,
            toggle,
            counter,
            amount,
        } => request(card, toggle, Kind::Add, counter, amount),
        Event::Show {
            card,
            toggle,
            counter,
        } => request(card, toggle, Kind::Show, counter, 0),
        Event::Step { card } => Call::Step { card },
        Event::Abort { card } => Call::Abort { card },
        Event::Reuse {
            card,
            node,
            next,
            prev,
            state,
            spin,
        } => {
            let values = NodeValues {
                next,
                prev,
                state,
                spin,
            };
            Call::Reuse { card, node, values }
        }
    }
}
