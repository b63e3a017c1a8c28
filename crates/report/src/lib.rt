// The lines that a run prints, each with its bytes fixed.
#![tactic(auto)]

mod lines;
mod words;

pub use lines::{answer_line, queue_line, refused_sizes};
pub use textline::bad_line;
pub use words::Outcome;
