ghost use Rattle.std.specs.Prelude.{◌≡◌, ◌+◌, ◌<◌, ◌≤◌, true, false, length, get_or, take, slice_index_or, slice_set};
ghost use Rattle.std.specs.List.{remove};
ghost use Rattle.inbox.specs.Contents.{longest_item, lasts, bytes_held, holding, empty_contents};
ghost use Rattle.inbox.specs.Calls.{holds, without, with_item, new_item, older};
ghost use Rattle.inbox.specs.Search.{LowerBound, Finds, no_item};
ghost use Rattle.packed_inbox.specs.Rows.{span};
ghost use Rattle.packed_inbox.specs.PackedInbox.{rows, lent, contents};
ghost use Rattle.packed_inbox.specs.LentMemory.{Rewrites, laid_in};

use super::PackedInbox;
use crate::memory::Memory;
use crate::row::{self, Row};
use arrayvec::ArrayVec;
use inbox::limits::Limits;

impl<'a> PackedInbox<'a> {
    /// An empty packed inbox over the memory.
    pub fn new(limits: Limits, memory: &'a mut [u8]) -> PackedInbox<'a>
        ensures empty { contents result ≡ empty_contents limits.senders (length memory.old) limits.life }
        ensures memory { lent result ≡ memory.old }
        ensures lender { result.memory.bytes.ghost_name ≡ memory.entry.ghost_name }
    {
        PackedInbox {
            memory: Memory { bytes: memory },
            limits,
            table: ArrayVec::new(),
        }
    }

    // Where the item of row `at` begins.
    pub(super) fn offset(&self, at: usize) -> usize
        requires { at ≤ length (rows self.now) }
        ensures { result ≡ span (take at (rows self.now)) }
    {
        row::bytes_of(&self.table[..at])
    }

    // Where the last item ends.
    pub(super) fn used(&self) -> usize
        ensures { result ≡ span (rows self.now) }
    {
        row::bytes_of(&self.table)
    }

    // How many bytes the items of the other senders have.
    pub(super) fn others(&self, sender: u16) -> usize
        ensures { result ≡ bytes_held (without (contents self.now).items sender) }
    {
        row::bytes_of_others(&self.table, sender)
    }

    // The first row whose sender is not below `sender`.
    pub(super) fn lower_bound(&self, sender: u16) -> usize
        ensures { LowerBound (contents self.now).items sender result }
    {
        self.table.partition_point(|row| row.sender < sender)
    }

    // The row of the sender.
    pub(super) fn find(&self, sender: u16) -> Option<usize>
        ensures { Finds (contents self.now).items sender result }
    {
        self.table
            .binary_search_by_key(&sender, |row| row.sender)
            .ok()
    }

    // Ends the item of row `at`, and closes the gap.
    pub(super) fn end(&mut self, at: usize)
        requires { at < length (rows self.old) }
        ensures after { contents self.new ≡ holding (contents self.old) (remove (contents self.old).items at) }
        ensures memory { Rewrites self.old.memory self.new.memory (laid_in (remove (contents self.old).items at) (lent self.old)) }
    {
        let from = self.offset(at);
        let past = self.offset(at + 1);
        let used = self.used();
        self.memory.shift(past, used, from);
        self.table.remove(at);
    }

    // Adds an item of a sender that has none. What is asked is of the inbox and the item together, so no type
    // says it; that the item is short is known of its length alone, by `Room::check`.
    pub(super) fn insert(&mut self, sender: u16, item: &[u8])
        requires free { holds (contents self.old).items sender ≡ false }
        requires few { length (contents self.old).items < (contents self.old).sender_limit }
        requires short { length item.now ≤ longest_item }
        requires room { bytes_held (contents self.old).items + length item.now ≤ (contents self.old).byte_limit }
        ensures after { contents self.new ≡ holding (contents self.old) (with_item (contents self.old).items (new_item sender item.now)) }
        ensures memory { Rewrites self.old.memory self.new.memory (laid_in (with_item (contents self.old).items (new_item sender item.now)) (lent self.old)) }
    {
        let at = self.lower_bound(sender);
        let from = self.offset(at);
        let used = self.used();
        let len = item.len();
        self.memory.shift(from, used, from + len);
        self.memory.write(from, item);
        let row = Row {
            sender,
            age: 0,
            len: len as u16,
        };
        self.table.insert(at, row);
    }

    // Sets the age of the item of row `at`, one more than it was, at which the item is still held.
    pub(super) fn raise(&mut self, at: usize, age: u8)
        requires row { at < length (rows self.old) }
        requires older { age ≡ (get_or (contents self.old).items at no_item).age + 1 }
        requires young { lasts (contents self.old).life age ≡ true }
        ensures after { contents self.new ≡ holding (contents self.old) (slice_set (contents self.old).items at (older (slice_index_or (contents self.old).items at no_item))) }
        ensures memory { Rewrites self.old.memory self.new.memory (lent self.old) }
    {
        self.table[at].age = age;
    }
}
