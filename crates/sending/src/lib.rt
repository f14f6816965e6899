//! What an exchange or share sends, written as its record.
#![tactic(auto)]

pub mod sent;
