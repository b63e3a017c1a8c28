// The door before the lock: requests, toggles, what is remembered of each card, and resends.
#![tactic(auto)]

pub mod call;
pub mod calls;
pub mod door;
pub mod fault;
pub mod request;
pub mod requests;
pub mod runs;
pub mod set_up;
