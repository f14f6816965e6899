ghost use Rattle.std.specs.Prelude.{◌≡◌, ◌<◌, ◌+◌, take, set};
ghost use Rattle.held.specs.Slots.{slot_tree, slot_bytes};

use super::Slots;
use crate::part::part;
use inbox::limits::LONGEST_ITEM;

// A slot is named by its index below the count, as an element of a slice is.
impl Slots {
    // No slot is taken. By name, and no `Default`: it is where loading starts, and stands in for nothing.
    pub(crate) fn empty() -> Slots
        ensures { result.count ≡ 0 }
    {
        Slots {
            numbers: [0; 16],
            lengths: [0; 16],
            count: 0,
        }
    }

    // These, and one more behind them.
    pub(crate) fn with(self, number: u16, length: usize) -> Slots
        requires { self.count < 16 }
        ensures numbers { result.numbers ≡ set self.numbers self.count number }
        ensures lengths { result.lengths ≡ set self.lengths self.count length }
        ensures count { result.count ≡ self.count + 1 }
    {
        let mut slots = self;
        slots.numbers[self.count] = number;
        slots.lengths[self.count] = length;
        slots.count += 1;
        slots
    }

    // The item in a slot, as far as it is within the bytes.
    fn item<'b>(&self, bytes: &'b [u8], j: usize) -> &'b [u8]
        requires there { j < self.now.count }
        ensures { result.now ≡ slot_bytes bytes.now self.now j }
    {
        part(bytes, j * LONGEST_ITEM, self.lengths[j])
    }

    /// The link of a slot's item: its first bytes.
    pub fn link_bytes<'b>(&self, width: usize, bytes: &'b [u8], j: usize) -> &'b [u8]
        requires there { j < self.now.count }
        ensures { result.now ≡ take width (slot_bytes bytes.now self.now j) }
    {
        part(self.item(bytes, j), 0, width)
    }

    /// The tree of a slot's item: the bytes behind its link.
    pub fn tree<'b>(&self, width: usize, bytes: &'b [u8], j: usize) -> &'b [u8]
        requires there { j < self.now.count }
        ensures { result.now ≡ slot_tree width bytes.now self.now j }
    {
        let item = self.item(bytes, j);
        &item[width.min(item.len())..]
    }
}
