//! Bytes of a bounded number, kept in the value itself.
#![tactic(auto)]

pub mod buffer;
