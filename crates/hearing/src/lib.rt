//! What a round hears: the trees of held senders and the last own tree, read forward by places, and rows made of them.
#![tactic(auto)]

pub mod cursors;
pub mod follow;
pub mod inputs;
pub mod rows;
