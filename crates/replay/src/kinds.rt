ghost use Rattle.std.specs.Prelude.{◌≡◌, ◌==◌, if◌then◌else◌};
ghost use Rattle.replay.specs.declared.kinds.BuiltIn.TheVariants.{Numbers as OfNumbers, LabelSets as OfLabelSets};

use kind::kind::Kind;
use kind::label_sets::LabelSets;

/// A kind of value that is built in.
#[derive(Clone, Copy, PartialEq, Eq, Debug)]
pub enum BuiltIn {
    Numbers,
    LabelSets,
}

/// The kind of this number, and numbers where there is none.
impl From<u8> for BuiltIn {
    ghost from_gives = { λ number kind. kind ≡ (if number == 2 then OfLabelSets else OfNumbers) };

    fn from(number: u8) -> BuiltIn {
        match number {
            LabelSets::NUMBER => BuiltIn::LabelSets,
            _ => BuiltIn::Numbers,
        }
    }
}
