use held::slots::Slots;
use program::program::Program;

/// What a round is given, as it lies in memory: the program, the node's number, the held senders with their items, the
/// last own tree (no bytes for none) and the readings.
#[derive(Clone, Copy)]
pub struct Inputs<'a> {
    pub program: &'a Program,
    pub node: u16,
    pub slots: &'a Slots,
    pub bytes: &'a [u8],
    // No bytes, and no `Option`: a tree of no bytes says nothing at any place.
    pub own: &'a [u8],
    pub readings: &'a [u8],
}

mod items;
