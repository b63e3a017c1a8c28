// Holds what schedules print, on both memories, byte for byte, against the output that is stored for them.
#![tactic(auto)]

mod holding;
mod telling;

pub use holding::holds;
pub use telling::run;
