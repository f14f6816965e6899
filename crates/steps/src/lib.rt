//! The steps of a round that work no part of an expression, and the rows of the variables in sight.
#![tactic(auto)]

pub mod finish;
pub mod frame;
pub mod hand_over;
pub mod leaf;
pub mod part_ways;
