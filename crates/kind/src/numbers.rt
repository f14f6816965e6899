ghost use Rattle.std.specs.Prelude.{refl};
ghost use Rattle.kind.specs.Numbers.{numbers as meaning_of_numbers};
ghost use Rattle.kind.specs.NumberLaws.{numbers_lawful};

use crate::kind::Kind;
use crate::number::Number;

/// Kind 1: numbers.
#[derive(Clone, Copy)]
pub struct Numbers;

impl Kind for Numbers {
    type Value = Number;

    ghost meaning = { meaning_of_numbers };

    const NUMBER: u8 = 1;

    ghost NUMBER = { 1 };

    const WIDTH: usize = 4;

    ghost WIDTH = { 4 };

    const OPERATORS: u8 = 10;

    ghost OPERATORS = { 10 };

    const OWN: Number = Number::ZERO;

    ghost OWN = { meaning_of_numbers.own };

    const UNKNOWN: Number = Number::LARGEST;

    ghost UNKNOWN = { meaning_of_numbers.unknown };

    ghost lawful = { numbers_lawful };

    ghost number_is = { refl };

    ghost width_is = { refl };

    ghost operators_is = { refl };

    ghost own_is = { refl };

    ghost unknown_is = { refl };

    fn truth(v: Number) -> bool {
        v.truth()
    }

    #[tactic(auto, using(crate::specs::NumberLaws::same_by_difference))]
    fn same(a: Number, b: Number) -> bool {
        a == b
    }

    fn apply(operator: u8, a: Number, b: Number) -> Number {
        match operator {
            0 => a.add(b),
            1 => a.subtract(b),
            2 => a.min(b),
            3 => a.max(b),
            4 => Number::from(a < b),
            5 => Number::from(a == b),
            6 => Number::from(a.both(b)),
            7 => Number::from(a.either(b)),
            8 => a.times(b),
            9 => a.over(b),
            _ => Number::nearest(0),
        }
    }

    fn read(bytes: &[u8]) -> Option<Number> {
        Number::from_be_bytes(bytes)
    }

    // As in the other kind: the bytes are of another integer, and std has no trait of these.
    fn write(v: Number, out: &mut [u8]) {
        out[..Self::WIDTH].copy_from_slice(&v.to_be_bytes());
    }
}
