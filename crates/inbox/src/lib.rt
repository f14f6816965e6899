//! Inboxes: what any inbox promises, the checked limits, and what can be done with any inbox.
#![tactic(auto)]

pub mod generic;
pub mod inbox;
pub mod limits;
pub mod room;
