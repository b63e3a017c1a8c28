// What the form checker says of a text: line by line what it understood, and then its verdict.
#![tactic(auto)]

mod telling;

pub use schedule::read_limit;
pub use telling::account;
