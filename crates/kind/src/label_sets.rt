ghost use Rattle.std.specs.Prelude.{refl};
ghost use Rattle.kind.specs.LabelSets.{label_sets as meaning_of_label_sets};
ghost use Rattle.kind.specs.LabelSetLaws.{label_sets_lawful};

use crate::kind::Kind;
use crate::label_set::LabelSet;

/// Kind 2: label sets.
#[derive(Clone, Copy)]
pub struct LabelSets;

impl Kind for LabelSets {
    type Value = LabelSet;

    ghost meaning = { meaning_of_label_sets };

    const NUMBER: u8 = 2;

    ghost NUMBER = { 2 };

    const WIDTH: usize = 8;

    ghost WIDTH = { 8 };

    const OPERATORS: u8 = 5;

    ghost OPERATORS = { 5 };

    const OWN: LabelSet = LabelSet::EMPTY;

    ghost OWN = { meaning_of_label_sets.own };

    const UNKNOWN: LabelSet = LabelSet::EMPTY;

    ghost UNKNOWN = { meaning_of_label_sets.unknown };

    ghost lawful = { label_sets_lawful };

    ghost number_is = { refl };

    ghost width_is = { refl };

    ghost operators_is = { refl };

    ghost own_is = { refl };

    ghost unknown_is = { refl };

    fn truth(v: LabelSet) -> bool {
        v.truth()
    }

    fn same(a: LabelSet, b: LabelSet) -> bool {
        a == b
    }

    fn apply(operator: u8, a: LabelSet, b: LabelSet) -> LabelSet {
        match operator {
            0 => a.union(b),
            1 => a.intersection(b),
            2 => a.without(b),
            3 => LabelSet::from(a == b),
            4 => LabelSet::from(a.within(b)),
            _ => LabelSet::from(false),
        }
    }

    fn read(bytes: &[u8]) -> Option<LabelSet> {
        LabelSet::from_be_bytes(bytes)
    }

    // As in the other kind: the bytes are of another integer, and std has no trait of these.
    fn write(v: LabelSet, out: &mut [u8]) {
        out[..Self::WIDTH].copy_from_slice(&v.to_be_bytes());
    }
}
