// The procedure of a card: its stages with their numbers, and the table of steps, one row a stage.
#![tactic(auto)]

pub mod addition;
pub mod answer;
mod calls;
pub mod layout;
pub mod reader_entry;
pub mod reader_exit;
pub mod rows;
pub mod stage;
pub mod writer_entry;
pub mod writer_exit;
