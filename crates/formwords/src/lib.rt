// The lines in which the form checker says what it understood.
#![tactic(auto)]

mod words;

pub use words::{Understood, count_line, event_line, sizes_line};
