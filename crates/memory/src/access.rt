// How a call meets a cell: a load or a read only looks at it, a store or a write gives it a value. This and the cell
// are all that a conflict is judged by, and a record of the two would be taken apart wherever it came.
#[derive(Clone, Copy)]
pub enum Access {
    Reads,
    Writes,
}
