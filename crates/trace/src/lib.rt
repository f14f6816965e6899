//! Lines of calls on a node, and what holds of them.
#![tactic(auto)]

pub mod laws;
