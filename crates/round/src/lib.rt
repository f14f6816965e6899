//! A round worked out: the rules over rows and bytes.
#![tactic(auto)]

mod task;
mod work;
pub mod work_out;
mod worker;
