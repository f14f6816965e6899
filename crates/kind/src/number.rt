ghost use Rattle.std.specs.Prelude.{◌≡◌, ◌^◌, ◌<◌, unsigned_abs};

/// The largest absolute value of a number.
const LIMIT: i32 = 2147483647;

/// A whole number from −2,147,483,647 to 2,147,483,647.
#[derive(Clone, Copy, PartialEq, Eq, PartialOrd, Ord, Debug)]
pub struct Number {
    value: i32,
    ghost range: { unsigned_abs value < 2 ^ 31 },
}

impl Number {
    /// 0.
    pub const ZERO: Number = Number { value: 0 };

    /// The largest number.
    pub const LARGEST: Number = Number { value: LIMIT };

    /// The number as an `i32`.
    pub fn value(self) -> i32
        ensures { result ≡ self.value }
    {
        self.value
    }
}

mod arithmetic;
mod writing;
