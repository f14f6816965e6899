//! The senders that a round holds, loaded from any inbox into lent bytes.
#![tactic(auto)]

pub mod load;
pub mod part;
pub mod slots;
