//! A reader's position in a tree: it goes forward by places, and tells what the tree says there.
#![tactic(auto)]

pub mod cursor;
