// Whole schedules: rendered to text, and read back.
#![tactic(auto)]

mod faults;
mod reading;
mod rendering;

pub use faults::ReadFault;
pub use reading::{Schedule, read};
pub use rendering::render;
