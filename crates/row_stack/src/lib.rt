//! A stack of rows of values: what a round works on.
#![tactic(auto)]

pub mod row_stack;
pub mod rows;
