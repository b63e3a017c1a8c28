// Where a card stands in the lock's procedure. The names of the rows are those of the table of steps.

// To share the inside with other readers, or to be alone there.
#[derive(Clone, Copy, PartialEq, Eq)]
pub enum Mode {
    Read,
    Write,
}

// A writer on its way in.
#[derive(Clone, Copy)]
pub enum WriterEntry {
    W1,
    W2,
    W3 { pred: u16 },
    W4 { pred: u16 },
    W5 { pred: u16 },
    W6,
}

// A reader on its way in.
#[derive(Clone, Copy)]
pub enum ReaderEntry {
    R1,
    R2,
    R3 { pred: u16 },
    R4 { pred: u16 },
    R5 { pred: u16 },
    R6 { pred: u16 },
    R7 { pred: u16, ps: u16 },
    R8,
    R9,
    R10,
    R11,
    R12 { nxt: u16 },
    R13 { nxt: u16 },
    R14 { nxt: u16 },
}

// A writer inside that adds to a counter.
#[derive(Clone, Copy)]
pub enum Addition {
    A1 {
        counter: u8,
        amount: u16,
    },
    A2 {
        counter: u8,
        amount: u16,
        value: u16,
    },
}

// A writer on its way out.
#[derive(Clone, Copy)]
pub enum WriterExit {
    X1,
    X2,
    X3 { nxt: u16 },
    X4 { nxt: u16 },
    X5 { nxt: u16 },
}

// A reader on its way out.
#[derive(Clone, Copy)]
pub enum ReaderExit {
    Y1,
    Y2,
    Y3 { pred: u16 },
    Y4 { pred: u16, nxt: u16 },
    Y5 { pred: u16, nxt: u16 },
    Y6 { pred: u16, nxt: u16 },
    Y7 { pred: u16, nxt: u16, ss: u16 },
    Y8 { nxt: u16 },
}

// A card's stage, with the numbers that it keeps: pred and nxt are links, ps and ss the states read of them. Each is
// what a cell held, so it may be any number. Where no state was read, ps or ss is 0: pred and nxt say already that it
// is not looked at, and an Option would say so twice.
#[derive(Clone, Copy)]
pub enum Stage {
    Idle,
    WriterEnters { node: u8, at: WriterEntry },
    ReaderEnters { node: u8, at: ReaderEntry },
    Inside { node: u8, mode: Mode },
    Adds { node: u8, at: Addition },
    WriterLeaves { node: u8, at: WriterExit },
    ReaderLeaves { node: u8, at: ReaderExit },
}

// A card's record.
#[derive(Clone, Copy)]
pub struct Card {
    pub stage: Stage,
}
