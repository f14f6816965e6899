ghost use Rattle.std.specs.Prelude.{◌≡◌};
ghost use Rattle.kind.specs.LabelSets as sets;

use super::LabelSet;

/// The bit above that of the highest label.
const NEXT_BIT: u64 = 0x1000_0000_0000_0000;

// Methods, as those of std with these names are: a conversion would not say the order of the bytes, and bits that are no
// set have no error to tell. A pair for each kind: std has no trait of integers that are written to bytes.
impl LabelSet {
    /// The set of these bits: `None` if any of the upper four is set.
    pub fn from_bits(bits: u64) -> Option<LabelSet>
        ensures { result ≡ sets.in_sixty bits }
    {
        if bits < NEXT_BIT {
            Some(LabelSet { bits })
        } else {
            None
        }
    }

    /// The bits, highest byte first.
    pub(crate) fn to_be_bytes(self) -> [u8; 8]
        ensures { result ≡ sets.written self }
    {
        self.bits().to_be_bytes()
    }

    /// The set that the bytes write: `None` for other than eight bytes, and if any of the upper four bits is set.
    pub(crate) fn from_be_bytes(bytes: &[u8]) -> Option<LabelSet>
        ensures { result ≡ sets.read bytes.now }
    {
        let bytes = bytes.try_into().ok()?;
        LabelSet::from_bits(u64::from_be_bytes(bytes))
    }
}
