// The first memory: written values are set aside until the commit.
#![tactic(auto)]

pub mod calls;
pub mod deferred;
pub(crate) mod doom;
pub(crate) mod own_tx;
