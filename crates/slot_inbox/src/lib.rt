//! The slot inbox: one slot for each sender, kept in the inbox itself.
#![tactic(auto)]

mod slot;
pub mod slot_inbox;
