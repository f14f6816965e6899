//! The rules of a round, and what holds of them.
#![tactic(auto)]

pub mod laws;
