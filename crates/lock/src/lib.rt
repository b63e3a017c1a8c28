// The lock on any memory: its sizes, the cards' records, and its calls.
#![tactic(auto)]

mod advance;
pub mod events;
pub mod fault;
mod judging;
mod lending;
pub mod line;
pub mod lock;
mod nodes;
pub mod requests;
pub mod set_up;
pub mod sizes;
pub mod sizing;
pub mod table;
pub mod values;
