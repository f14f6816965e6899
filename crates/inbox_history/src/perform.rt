ghost use Rattle.std.specs.Prelude.{◌≡◌};
ghost use Rattle.inbox_history.specs.Histories.{after_call};

use crate::call::{Answer, Call};
use inbox::inbox::Inbox;

/// Makes the call of the inbox, a read with the front of the buffer.
pub fn perform<I: Inbox>(inbox: &mut I, call: Call, item: &[u8], buffer: &mut [u8]) -> Answer
    ensures { I.Inbox.meaning inbox.new ≡ after_call call (I.Inbox.meaning inbox.old) item.now }
{
    match call {
        Call::Put { sender, .. } => Answer::from(inbox.put(sender, item)),
        Call::Remove { sender } => Answer::Held(inbox.remove(sender)),
        Call::Next { k } => Answer::Sender(inbox.next(k)),
        Call::Read { sender, room } => {
            let room = room.min(buffer.len());
            Answer::from(inbox.read(sender, &mut buffer[0..room]))
        }
        Call::Passing => {
            inbox.passing();
            Answer::Done
        }
    }
}
