ghost use Rattle.std.specs.Prelude.{◌≡◌};
ghost use Rattle.inbox.specs.Calls.{put_checked, buffer_checked};

use crate::limits::LONGEST_ITEM;
use refusal::cause::Cause;
use refusal::refused::Refusal;

/// What an item is put beside.
#[derive(Clone, Copy)]
pub struct Room {
    /// Whether its sender is held.
    // A flag by itself: no value stands beside it that only a held sender has.
    pub held: bool,
    /// How many senders are held.
    pub count: usize,
    /// How many senders may be held.
    pub sender_limit: usize,
    /// How many bytes the items of the others have.
    pub others: usize,
    /// How many bytes all items may have.
    pub byte_limit: usize,
}

impl Room {
    /// Whether an item of so many bytes may be put.
    pub fn check(self, len: usize) -> Result<(), Refusal>
        ensures { result ≡ put_checked len self.held self.count self.sender_limit self.others self.byte_limit }
    {
        if len > LONGEST_ITEM {
            return Err(Refusal {
                cause: Cause::ItemTooLong,
                position: 0,
            });
        }
        if !self.held && self.count >= self.sender_limit {
            return Err(Refusal {
                cause: Cause::SendersFull,
                position: 0,
            });
        }
        if self.others > self.byte_limit || len > self.byte_limit - self.others {
            return Err(Refusal {
                cause: Cause::BytesFull,
                position: 0,
            });
        }
        Ok(())
    }
}

/// Whether any item fits a buffer of so many bytes.
pub fn check_buffer(len: usize) -> Result<(), Refusal>
    ensures { result ≡ buffer_checked len }
{
    if len < LONGEST_ITEM {
        return Err(Refusal {
            cause: Cause::BufferShort,
            position: 0,
        });
    }
    Ok(())
}
