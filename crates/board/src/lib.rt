// The board: the door's calls, with the promise over every run on their contracts.
#![tactic(auto)]

pub mod board;
pub mod calls;
pub mod set_up;
