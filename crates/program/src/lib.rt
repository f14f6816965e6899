//! Programs: from any bytes to a checked program, or one refusal with its position.
#![tactic(auto)]

mod block;
pub mod check;
pub mod expression;
pub mod function;
pub mod header;
pub mod outline;
pub mod program;
pub mod shape;
pub mod sizes;
mod sizing;
mod source;
pub mod suited;
