ghost use Rattle.std.specs.Prelude.{◌≡◌};
ghost use Rattle.kind.specs.Numbers as numbers;

use super::Number;

// Methods, as those of std with these names are: a conversion would not say the order of the bytes. A pair for each kind:
// std has no trait of integers that are written to bytes.
impl Number {
    /// Two's complement, highest byte first.
    pub(crate) fn to_be_bytes(self) -> [u8; 4]
        ensures { result ≡ numbers.written self }
    {
        self.value().cast_unsigned().to_be_bytes()
    }

    /// The number that the bytes write: `None` for other than four bytes, and for 80000000.
    pub(crate) fn from_be_bytes(bytes: &[u8]) -> Option<Number>
        ensures { result ≡ numbers.read bytes.now }
    {
        let bytes = bytes.try_into().ok()?;
        from_bits(u32::from_be_bytes(bytes))
    }
}

/// The number that 32 bits write: `None` for 80000000.
// No `TryFrom`: bits that are no number have no error to tell.
fn from_bits(bits: u32) -> Option<Number>
    ensures { result ≡ numbers.in_range (numbers.signed bits) }
{
    let value = bits.cast_signed();
    if value == i32::MIN {
        None
    } else {
        Some(Number { value })
    }
}
