ghost use Rattle.std.specs.Prelude.{◌≡◌, ◌*◌, length};
ghost use Rattle.inbox.specs.Contents.{Lawful, longest_item, most_senders};
ghost use Rattle.slot_inbox.specs.Slots.{gathered, Distinct};

use crate::slot::Slot;
use inbox::limits::{Limits, MOST_SENDERS};

pub mod calls;
mod keeping;

/// An inbox with one slot for each sender. Its byte limit is the longest item for each sender that it may hold.
#[derive(Drop)]
pub struct SlotInbox {
    limits: Limits,
    slots: [Option<Slot>; MOST_SENDERS],
    ghost full: { length slots ≡ most_senders },
    ghost lawful: { ∥ Lawful (record { sender_limit = limits.senders; byte_limit = longest_item * limits.senders; life = limits.life; items = gathered slots }) ∥₁ },
    ghost distinct: { ∥ Distinct slots ∥₁ },
}
