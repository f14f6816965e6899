ghost use Rattle.std.specs.Prelude.{◌≡◌, ◌+◌, ◌≤◌, ◌++◌, length, take, OnOk};
ghost use Rattle.refusal.specs.Outcomes.{mapped};
ghost use Rattle.tree.specs.Trees.{sender_of};
ghost use Rattle.trace.specs.Calls.{arriving};
ghost use Rattle.node.specs.Nodes.{state};

use super::Node;
use inbox::inbox::Inbox;
use kind::kind::Kind;
use program::suited::ProgramFor;
use refusal::cause::Cause;
use refusal::refused::Refusal;
use tree::message::read;

// Writes link and message to the item's front, and answers how long they are together.
// An inner function: they fit the item.
pub(crate) fn join(link: &[u8], message: &[u8], item: &mut [u8]) -> usize
    requires { length link.now + length message.now ≤ length item.old }
    ensures long { result ≡ length link.now + length message.now }
    ensures joined { take result item.new ≡ link.now ++ message.now }
{
    let n = link.len();
    let end = n + message.len();
    item[..n].copy_from_slice(link);
    item[n..end].copy_from_slice(message);
    end
}

impl<K: Kind, I: Inbox> Node<K, I> {
    // The sender of a link and a message, if they are to be put; or the first refusal.
    pub(crate) fn check_arriving(&self, link: &[u8], message: &[u8]) -> Result<u16, Refusal>
        ensures is { result ≡ mapped sender_of (arriving K.Kind.meaning (state I.Inbox.meaning self.now) link.now message.now) }
        ensures fits { OnOk result (length link.now + length message.now ≤ 2064) }
    {
        ProgramFor::<K>::of(&self.program)?;
        if K::read(link).is_none() {
            return Err(Refusal {
                cause: Cause::LinkRefused,
                position: 0,
            });
        }
        read::<K>(&self.program, self.number, message)
    }
}
