// A board for measurements from outside: a coded list of calls goes in, and a digest of all answers comes out.
#![tactic(auto)]

mod digest;
mod run;
mod workload;

pub use run::benchboard_deferred;
