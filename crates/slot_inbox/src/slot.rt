ghost use Rattle.std.specs.Prelude.{◌≡◌, ◌≤◌, [], ◌++◌, length, drop};
ghost use Rattle.inbox.specs.Contents.{longest_item};
ghost use Rattle.inbox.specs.Calls.{new_item};
ghost use Rattle.slot_inbox.specs.Slots.{slot_item, is_of as is_held, aged_slot, renewed_slot};

use arrayvec::ArrayVec;
use inbox::limits::{LONGEST_ITEM, Limits};

/// A held item.
#[derive(Drop)]
pub struct Slot {
    pub sender: u16,
    pub age: u8,
    pub bytes: ArrayVec<u8, LONGEST_ITEM>,
}

impl Slot {
    /// A slot that holds an empty item at age 0.
    pub fn new(sender: u16) -> Slot
        ensures { slot_item result ≡ new_item sender [] }
    {
        Slot {
            sender,
            age: 0,
            bytes: ArrayVec::new(),
        }
    }

    /// Copies the item to the buffer's front, and answers its length.
    pub fn read(&self, buffer: &mut [u8]) -> usize
        requires { length (slot_item self.now).bytes ≤ length buffer.old }
        ensures len { result ≡ length (slot_item self.now).bytes }
        ensures after { buffer.new ≡ (slot_item self.now).bytes ++ drop result buffer.old }
    {
        let bytes = self.bytes.as_slice();
        buffer[..bytes.len()].copy_from_slice(bytes);
        bytes.len()
    }
}

/// Raises the age of the slot's item by one, or ends it.
pub(crate) fn age(slot: &mut Option<Slot>, limits: Limits)
    ensures { slot.new ≡ aged_slot limits.life slot.old }
{
    if let Some(held) = slot {
        match limits.older(held.age) {
            Some(age) => held.age = age,
            None => *slot = None,
        }
    }
}

/// Puts the item at age 0 in place of the slot's own, where that lies.
pub(crate) fn renew(slot: &mut Option<Slot>, item: &[u8])
    requires { length item.now ≤ longest_item }
    ensures { slot.new ≡ renewed_slot item.now slot.old }
{
    if let Some(held) = slot {
        held.age = 0;
        // No `clear`: it writes blanks where the item's bytes go.
        held.bytes.truncate(item.len());
        let (front, rest) = item.split_at(held.bytes.len());
        held.bytes.as_mut_slice().copy_from_slice(front);
        held.bytes.try_extend_from_slice(rest).unwrap();
    }
}

/// Whether the slot holds an item of the sender.
pub(crate) fn is_of(slot: &Option<Slot>, sender: u16) -> bool
    ensures { result ≡ is_held sender slot.now }
{
    slot.as_ref().is_some_and(|held| held.sender == sender)
}
