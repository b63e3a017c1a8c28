// What a schedule says: the sizes of its board and its events.
ghost use Rattle.std.specs.Prelude.{Some};
ghost use Rattle.textline.specs.Events.{written};

use std::fmt;

// The three size lines as they stand in the text; whether a board of these sizes exists is not judged here.
#[derive(Clone, Copy)]
pub struct SizeLines {
    pub cards: u16,
    pub nodes: u16,
    pub counters: u16,
}

// One event line.
#[derive(Clone, Copy)]
pub enum Event {
    Read {
        card: u16,
        toggle: u16,
        node: u16,
    },
    Write {
        card: u16,
        toggle: u16,
        node: u16,
    },
    Leave {
        card: u16,
        toggle: u16,
    },
    Add {
        card: u16,
        toggle: u16,
        counter: u16,
        amount: u16,
    },
    Show {
        card: u16,
        toggle: u16,
        counter: u16,
    },
    Step {
        card: u16,
    },
    Abort {
        card: u16,
    },
    Reuse {
        card: u16,
        node: u16,
        next: u16,
        prev: u16,
        state: u16,
        spin: u16,
    },
}

// As it stands in a schedule, without the end of its line.
impl fmt::Display for Event {
    ghost output = { λ e. Some (written e) };

    fn fmt<W: fmt::Write>(&self, f: &mut fmt::Formatter<W>) -> fmt::Result {
        match *self {
            Event::Read { card, toggle, node } => write!(f, "r {card} {toggle} {node}"),
            Event::Write { card, toggle, node } => write!(f, "w {card} {toggle} {node}"),
            Event::Leave { card, toggle } => write!(f, "l {card} {toggle}"),
            Event::Add {
                card,
                toggle,
                counter,
                amount,
            } => write!(f, "a {card} {toggle} {counter} {amount}"),
            Event::Show {
                card,
                toggle,
                counter,
            } => write!(f, "c {card} {toggle} {counter}"),
            Event::Step { card } => write!(f, "s {card}"),
            Event::Abort { card } => write!(f, "x {card}"),
            Event::Reuse {
                card,
                node,
                next,
                prev,
                state,
                spin,
            } => write!(f, "u {card} {node} {next} {prev} {state} {spin}"),
        }
    }
}
