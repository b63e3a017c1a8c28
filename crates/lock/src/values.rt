// The values for a node's four cells.
#[derive(Clone, Copy)]
pub struct NodeValues {
    pub next: u16,
    pub prev: u16,
    pub state: u16,
    pub spin: u16,
}
