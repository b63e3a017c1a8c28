// Where the lock's numbers lie in the memory.
ghost use Rattle.std.specs.Prelude.{◌≡◌};
ghost use Rattle.stages.specs.Layout.{link, cell_of, counter_cell};

// The cell that holds the link of the last node in line. A link is a node's number and 1, or 0 for nobody.
pub const TAIL: usize = 0;

// The states of a node, by the numbers that stand in its cell. A cell may hold any other number, so what is read of one
// stays a number and is compared with a state's.
#[derive(Clone, Copy)]
pub enum State {
    Reader = 1,
    Writer = 2,
    // an active reader, one that was let in or is about to be
    Active = 3,
}

// The four cells of a node, by the places where they lie: the first node's are the cells 1 to 4.
#[derive(Clone, Copy)]
pub enum Field {
    // the link of the node behind
    Next = 1,
    // the link of the node ahead; only readers keep it
    Prev = 2,
    // the number of a state
    State = 3,
    // 0 once the node's card need not wait
    Spin = 4,
}

// The link of a node.
pub fn link_of(node: u8) -> u16
    ensures { result ≡ link node }
{
    u16::from(node) + 1
}

// The cell of a field of the node that a link names, and the tail for the link of nobody: who leaves as the last in
// line writes to the tail what it would write to its successor's prev.
pub fn cell_of(link: u16, field: Field) -> usize
    ensures { result ≡ cell_of link field }
{
    if link == 0 {
        return TAIL;
    }
    field as usize + 4 * usize::from(link - 1)
}

// The cell of a counter: the counters lie behind the nodes.
pub fn counter_cell(nodes: u8, counter: u8) -> usize
    ensures { result ≡ counter_cell nodes counter }
{
    1 + 4 * usize::from(nodes) + usize::from(counter)
}
