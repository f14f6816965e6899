//! Trees and their records: how they stand in the bytes of a message, how they are judged, read and written.
//! docs/tree.md has the rules. Functions with a `requires` are inner functions for the crates above.
#![tactic(auto)]

pub mod header;
pub mod judge;
pub mod laws;
pub mod output;
pub mod reading;
pub mod record;
pub mod write;
