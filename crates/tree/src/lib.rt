//! Trees along a program: a message is read side by side with the program's unfolded expression.
#![tactic(auto)]

pub mod message;
mod walk;
