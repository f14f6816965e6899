ghost use Rattle.std.specs.Prelude.{◌≡◌, length};

/// Where the round stands in the tree of each held sender, and in the last own tree.
#[derive(Clone, Copy)]
pub struct Cursors {
    // By slot, as the flags of the aligned senders are: these move on in a round, and the slots do not.
    pub senders: [usize; 16],
    pub own: usize,
    ghost all: { length senders ≡ 16 },
}
