// The second memory: written values go into the cells at once, and old ones are kept to restore.
#![tactic(auto)]

pub mod calls;
pub mod inplace;
pub(crate) mod serving;
pub(crate) mod undo;
