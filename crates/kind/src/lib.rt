//! Kinds of value: the trait that every kind meets, and the two kinds built in, numbers and label sets.
//! docs/kinds.md has the rules.
#![tactic(auto)]

pub mod kind;
pub mod label_set;
pub mod label_sets;
pub mod number;
pub mod numbers;
pub mod output;
