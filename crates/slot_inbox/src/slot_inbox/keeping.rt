ghost use Rattle.std.specs.Prelude.{◌≡◌, ℕ, ◌*◌, ◌<◌, ◌≤◌, ◌==◌, false, Some, length, find, position, is_none, option_copied};
ghost use Rattle.inbox.specs.Contents.{longest_item, most_senders, holding, empty_contents};
ghost use Rattle.inbox.specs.Calls.{holds, without, with_item, new_item};
ghost use Rattle.slot_inbox.specs.Slots.{taken, is_of};
ghost use Rattle.slot_inbox.specs.SlotInbox.{contents};

use super::SlotInbox;
use crate::slot::{self, Slot};
use inbox::limits::Limits;
use std::array;

impl SlotInbox {
    /// An empty slot inbox.
    pub fn new(limits: Limits) -> SlotInbox
        ensures { contents result ≡ empty_contents limits.senders (longest_item * limits.senders) limits.life }
    {
        SlotInbox {
            limits,
            slots: array::from_fn(|_| None),
        }
    }

    // The slot of the sender. Beside `place`: a read needs the slot, a removal its index.
    pub(super) fn find(&self, sender: u16) -> Option<&Slot>
        ensures { option_copied result ≡ find (λ s. s.sender == sender) (taken self.now.slots) }
    {
        self.slots
            .iter()
            .flatten()
            .find(|slot| slot.sender == sender)
    }

    // Where the slot of the sender is.
    pub(super) fn place(&self, sender: u16) -> Option<usize>
        ensures { result ≡ position (is_of sender) self.now.slots }
    {
        self.slots.iter().position(|slot| slot::is_of(slot, sender))
    }

    // A slot that holds nothing.
    pub(super) fn vacant(&self) -> Option<usize>
        ensures { result ≡ position is_none self.now.slots }
    {
        self.slots.iter().position(|slot| slot.is_none())
    }

    // How many senders are held.
    pub(super) fn count(&self) -> usize
        ensures { result ≡ length (contents self.now).items }
    {
        self.slots.iter().flatten().count()
    }

    // Adds an item of a sender that has none. What is asked is of the inbox and the item together, so no type
    // says it; that the item is short is known of its length alone, by `Room::check`.
    pub(super) fn insert(&mut self, sender: u16, item: &[u8])
        requires free { holds (contents self.old).items sender ≡ false }
        requires few { length (contents self.old).items < (contents self.old).sender_limit }
        requires short { length item.now ≤ longest_item }
        ensures { contents self.new ≡ holding (contents self.old) (with_item (contents self.old).items (new_item sender item.now)) }
    {
        let vacant = self.vacant().unwrap();
        let slot = &mut self.slots[vacant];
        *slot = Some(Slot::new(sender));
        slot::renew(slot, item);
    }

    // Puts an item in place of its sender's earlier one, which is there.
    pub(super) fn renew(&mut self, at: usize, item: &[u8])
        requires row { at < most_senders }
        requires short { length item.now ≤ longest_item }
        ensures { (s : ℕ) → position (is_of s) self.old.slots ≡ Some at
            → contents self.new ≡ holding (contents self.old) (with_item (without (contents self.old).items s) (new_item s item.now)) }
    {
        slot::renew(&mut self.slots[at], item);
    }
}
