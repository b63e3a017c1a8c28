use lock::values::NodeValues;

// A call of the board: a request of five numbers, or an event that is no request. It is a value and no closure: the
// promise speaks of lists of calls, and a book is fed the same ones.
#[derive(Clone, Copy)]
pub enum Call {
    Request {
        card: u16,
        toggle: u16,
        kind: u16,
        first: u16,
        second: u16,
    },
    Step {
        card: u16,
    },
    Abort {
        card: u16,
    },
    Reuse {
        card: u16,
        node: u16,
        values: NodeValues,
    },
}
