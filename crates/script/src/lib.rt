//! Scripts of calls: how a line is read. For programs, not for firmware: it uses the heap.
#![tactic(auto)]

pub mod decimal;
pub mod hexadecimal;
pub mod line;
pub mod text;
