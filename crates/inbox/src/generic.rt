ghost use Rattle.std.specs.Prelude.{◌≡◌, []};
ghost use Rattle.inbox.specs.Contents.{holding};

use crate::inbox::Inbox;

/// Ends every held item.
pub fn clear<I: Inbox>(inbox: &mut I)
    ensures { I.Inbox.meaning inbox.new ≡ holding (I.Inbox.meaning inbox.old) [] }
{
    // No index, and no iterator: an inbox hands out none.
    while let Some(sender) = inbox.next(0) {
        let _ = inbox.remove(sender);
    }
}
