ghost use Rattle.std.specs.Prelude.{◌≡◌, ◌^◌, ◌<◌};

/// A set of labels from 0 to 59: label i is bit i from the lowest.
#[derive(Clone, Copy, PartialEq, Eq, Debug)]
pub struct LabelSet {
    bits: u64,
    ghost sixty: { bits < 2 ^ 60 },
}

impl LabelSet {
    /// The set without labels.
    pub const EMPTY: LabelSet = LabelSet { bits: 0 };

    /// The set as bits.
    pub fn bits(self) -> u64
        ensures { result ≡ self.bits }
    {
        self.bits
    }
}

mod operators;
mod writing;
