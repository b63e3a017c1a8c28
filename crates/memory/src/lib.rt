// What a memory with transactions means, the trait that memories are proved against, and the law that open transactions
// never overlap. What memories are made of: a call's place, the log of a transaction, one search for records by their
// cell, and the landing of values.
#![tactic(auto)]

pub mod access;
pub mod call;
pub mod fault;
pub mod few;
pub mod land;
pub mod log;
pub mod logging;
pub mod memory;
pub mod place;
pub mod replay;
pub mod search;
pub mod write;
