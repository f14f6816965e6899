ghost use Rattle.std.specs.Prelude.{◌≡◌, ◌+◌, ◌≤◌, true, length};
ghost use Rattle.program.specs.Programs.{shown, run_of};
ghost use Rattle.program.specs.Verdict.{suits};
ghost use Rattle.record.specs.Plans.{due};
ghost use Rattle.rules.specs.Held.{held_in};
ghost use Rattle.held.specs.Slots.{Loaded};
ghost use Rattle.held.specs.Loading.{ReadsItem, is_held};

use crate::slots::Slots;
use inbox::inbox::Inbox;
use inbox::limits::LONGEST_ITEM;
use kind::kind::Kind;
use program::program::Program;
use tree::message::read;

/// Reads the sender's item into the bytes from `start` on, and answers its length.
fn read_item<I: Inbox>(inbox: &I, sender: u16, bytes: &mut [u8], start: usize) -> usize
    requires room { start + 2064 ≤ length bytes.old }
    ensures { ReadsItem (I.Inbox.meaning inbox.now) sender start bytes.old bytes.new result }
{
    let found = inbox.read(sender, &mut bytes[start..start + LONGEST_ITEM]);
    // 0 where there is none: an item of no bytes is no link and no tree, so it does not count.
    found.ok().flatten().unwrap_or(0)
}

/// Whether an item is a link and a tree of this sender.
fn counts<K: Kind>(program: &Program, node: u16, sender: u16, item: &[u8]) -> bool
    requires suits { suits K.Kind.meaning (shown program.now) ≡ true }
    ensures { result ≡ is_held K.Kind.meaning program.now node sender item.now }
{
    let Some((link, tree)) = item.split_at_checked(K::WIDTH) else {
        return false;
    };
    K::read(link).is_some() && read::<K>(program, node, tree) == Ok(sender)
}

/// Reads each held item once into the bytes, and keeps those that are a link and a tree of their sender.
/// An inner function: the program is for the kind, and there are bytes for sixteen items.
pub fn load<K: Kind, I: Inbox>(program: &Program, node: u16, inbox: &I, bytes: &mut [u8]) -> Slots
    requires suits { suits K.Kind.meaning (shown program.now) ≡ true }
    requires room { 33024 ≤ length bytes.old }
    ensures { Loaded K.Kind.meaning program.now node bytes.new result (held_in K.Kind.meaning (due (run_of program.now) 0) (shown program.now).header.number node (I.Inbox.meaning inbox.now).items) }
{
    let mut slots = Slots::empty();
    // By numbers: the calls of an inbox are given, and none of them hands out an iterator.
    let mut from = 0;
    while let Some(sender) = inbox.next(from) {
        let start = slots.count * LONGEST_ITEM;
        let size = read_item(inbox, sender, bytes, start);
        if counts::<K>(program, node, sender, &bytes[start..start + size]) {
            slots = slots.with(sender, size);
        }
        let Some(next) = sender.checked_add(1) else {
            break;
        };
        from = next;
    }
    slots
}
