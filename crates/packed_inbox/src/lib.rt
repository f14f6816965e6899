//! The packed inbox: items end to end in memory that is lent to it.
#![tactic(auto)]

mod memory;
pub mod packed_inbox;
mod row;
