// What a whole schedule prints: it is read, run on a board, and answered line by line.
#![tactic(auto)]

mod calls;
mod faults;
mod running;

pub use calls::call_of;
pub use running::run;
pub use schedule::read_limit;
