//! A node: a program, a number, an inbox and the last tree of its own, with the calls on them.
#![tactic(auto)]

pub mod node;
