ghost use Rattle.std.specs.Prelude.{◌≡◌};
ghost use Rattle.kind.specs.Numbers as numbers;

use super::{LIMIT, Number};

/// 1 for yes, 0 for no.
impl From<bool> for Number {
    ghost from_gives = { λ yes r. r ≡ numbers.from_bool yes };

    fn from(yes: bool) -> Number {
        Number::nearest(yes as i64)
    }
}

impl Number {
    /// The number nearest to `z`: `z` itself, within the range.
    pub fn nearest(z: i64) -> Number
        ensures { result ≡ numbers.nearest z }
    {
        Number {
            value: z.clamp(-LIMIT as i64, LIMIT as i64) as i32,
        }
    }

    /// Whether the number is not 0.
    pub(crate) fn truth(self) -> bool
        ensures { result ≡ numbers.truth self }
    {
        self != Number::ZERO
    }

    /// Whether both numbers are true.
    pub(crate) fn both(self, other: Number) -> bool
        ensures { result ≡ numbers.both self other }
    {
        self.truth() && other.truth()
    }

    /// Whether at least one of two numbers is true.
    pub(crate) fn either(self, other: Number) -> bool
        ensures { result ≡ numbers.either self other }
    {
        self.truth() || other.truth()
    }

    /// The sum.
    pub(crate) fn add(self, other: Number) -> Number
        ensures { result ≡ numbers.add self other }
    {
        Number::nearest(self.value as i64 + other.value as i64)
    }

    /// The first number less the second.
    pub(crate) fn subtract(self, other: Number) -> Number
        ensures { result ≡ numbers.subtract self other }
    {
        Number::nearest(self.value as i64 - other.value as i64)
    }

    /// The product.
    pub(crate) fn times(self, other: Number) -> Number
        ensures { result ≡ numbers.times self other }
    {
        Number::nearest(self.value as i64 * other.value as i64)
    }

    /// The first number over the second, the fraction dropped; 0 where the second is 0.
    pub(crate) fn over(self, other: Number) -> Number
        ensures { result ≡ numbers.over self other }
    {
        Number::nearest(quotient(self.value, other.value))
    }
}

/// The quotient without its fraction, and 0 for the divisor 0.
fn quotient(a: i32, b: i32) -> i64
    ensures { result ≡ numbers.quotient a b }
{
    if b == 0 { 0 } else { a as i64 / b as i64 }
}
