// The lines of a schedule: a number alone, or an event.
#![tactic(auto)]

mod events;
mod faults;
mod lines;
mod numerals;

pub use events::{Event, SizeLines};
pub use faults::{FormFault, bad_line};
pub use lines::{cut_event, cut_number};
