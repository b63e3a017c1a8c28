// A recorded write: a cell and the value that it is to have.
#[derive(Clone, Copy)]
pub struct Write {
    pub cell: u8,
    pub value: u16,
}
