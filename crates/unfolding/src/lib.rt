//! Walks over the bytes of a checked program, which follow its unfolded expression.
//! By positions, and with no tree of boxes: there is no heap.
#![tactic(auto)]

pub mod run;
pub mod skip;
pub mod step;
