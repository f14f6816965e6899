ghost use Rattle.std.specs.Prelude.{◌≡◌, ◌^◌, ◌<◌};
ghost use Rattle.kind.specs.LabelSets as sets;

use super::LabelSet;

/// Label 0 alone for yes, the empty set for no.
impl From<bool> for LabelSet {
    ghost from_gives = { λ yes r. r ≡ sets.from_bool yes };

    fn from(yes: bool) -> LabelSet {
        labelled(yes as u64)
    }
}

impl LabelSet {
    /// Whether the label is in the set.
    ///
    /// The second clause says what the operators of the kind do, label by label.
    pub fn has(self, label: u8) -> bool
        ensures is { result ≡ sets.has self label }
        ensures operators { sets.ByLabel }
    {
        label < 60 && (self.bits >> label) % 2 == 1
    }

    /// Whether there is any label.
    pub(crate) fn truth(self) -> bool
        ensures { result ≡ sets.truth self }
    {
        self != LabelSet::EMPTY
    }

    /// Whether the second set has all labels of the first.
    pub(crate) fn within(self, other: LabelSet) -> bool
        ensures { result ≡ sets.within self other }
    {
        self.bits & other.bits == self.bits
    }

    /// The labels of either set.
    pub(crate) fn union(self, other: LabelSet) -> LabelSet
        ensures { result ≡ sets.«union» self other }
    {
        labelled(self.bits | other.bits)
    }

    /// The labels that both sets have.
    pub(crate) fn intersection(self, other: LabelSet) -> LabelSet
        ensures { result ≡ sets.intersection self other }
    {
        labelled(self.bits & other.bits)
    }

    /// The first set's labels that are not in the second.
    pub(crate) fn without(self, other: LabelSet) -> LabelSet
        ensures { result ≡ sets.without self other }
    {
        labelled(self.bits ^ (self.bits & other.bits))
    }
}

/// The set of these bits.
fn labelled(bits: u64) -> LabelSet
    requires { bits < 2 ^ 60 }
    ensures { result ≡ sets.labelled bits }
{
    LabelSet { bits }
}
