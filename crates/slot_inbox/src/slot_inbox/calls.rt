ghost use Rattle.slot_inbox.specs.SlotInbox.{contents, slot_inbox_lawful};

use super::SlotInbox;
use crate::slot;
use inbox::inbox::Inbox;
use inbox::limits::LONGEST_ITEM;
use inbox::room::{Room, check_buffer};
use refusal::refused::Refusal;

// Calls have the same steps in both inboxes, but over inner functions of each: one generic function would need a trait of
// those. A `match` stands where the two ways do different things.
impl Inbox for SlotInbox {
    ghost meaning = { contents };

    ghost lawful = { slot_inbox_lawful };

    fn put(&mut self, sender: u16, item: &[u8]) -> Result<(), Refusal> {
        let place = self.place(sender);
        // Each sender has room for the longest item, whatever the others have.
        let room = Room {
            held: place.is_some(),
            count: self.count(),
            sender_limit: self.limits.sender_limit(),
            others: 0,
            byte_limit: LONGEST_ITEM,
        };
        room.check(item.len())?;
        match place {
            Some(at) => self.renew(at, item),
            None => self.insert(sender, item),
        }
        Ok(())
    }

    fn remove(&mut self, sender: u16) -> bool {
        match self.place(sender) {
            Some(at) => {
                self.slots[at] = None;
                true
            }
            None => false,
        }
    }

    fn next(&self, k: u16) -> Option<u16> {
        self.slots
            .iter()
            .flatten()
            .map(|slot| slot.sender)
            .filter(|sender| *sender >= k)
            .min()
    }

    fn read(&self, sender: u16, buffer: &mut [u8]) -> Result<Option<usize>, Refusal> {
        check_buffer(buffer.len())?;
        // No `map`: with a closure that writes to the buffer the proof did not close.
        let Some(slot) = self.find(sender) else {
            return Ok(None);
        };
        Ok(Some(slot.read(buffer)))
    }

    fn passing(&mut self) {
        for slot in &mut self.slots {
            slot::age(slot, self.limits);
        }
    }
}
