ghost use Rattle.std.specs.Prelude.{◌≡◌, false};
ghost use Rattle.inbox.specs.Calls.{IfRefused, put_answer, after_put, holds, after_remove, after_passing};
ghost use Rattle.packed_inbox.specs.PackedInbox.{lent, contents, packed_inbox_lawful};
ghost use Rattle.packed_inbox.specs.LentMemory.{Rewrites, laid_in, memory_after_passing};

use super::PackedInbox;
use inbox::inbox::Inbox;
use inbox::room::{Room, check_buffer};
use refusal::refused::Refusal;

// Calls have the same steps in both inboxes, but over inner functions of each: one generic function would need a trait of
// those. A `match` stands where the two ways do different things.
impl<'a> Inbox for PackedInbox<'a> {
    ghost meaning = { contents };

    ghost lawful = { packed_inbox_lawful };

    fn put(&mut self, sender: u16, item: &[u8]) -> Result<(), Refusal>
        ensures value { result ≡ put_answer (contents self.old) sender item.now }
        ensures after { contents self.new ≡ after_put (contents self.old) sender item.now }
        ensures untouched { IfRefused result (self.new ≡ self.old) }
        ensures memory { Rewrites self.old.memory self.new.memory (laid_in (contents self.new).items (lent self.old)) }
    {
        let room = Room {
            held: self.find(sender).is_some(),
            count: self.table.len(),
            sender_limit: self.limits.sender_limit(),
            others: self.others(sender),
            byte_limit: self.memory.size(),
        };
        room.check(item.len())?;
        let _ = self.remove(sender);
        self.insert(sender, item);
        Ok(())
    }

    fn remove(&mut self, sender: u16) -> bool
        ensures value { result ≡ holds (contents self.old).items sender }
        ensures after { contents self.new ≡ after_remove (contents self.old) sender }
        ensures untouched { result ≡ false → self.new ≡ self.old }
        ensures memory { Rewrites self.old.memory self.new.memory (laid_in (contents self.new).items (lent self.old)) }
    {
        match self.find(sender) {
            Some(at) => {
                self.end(at);
                true
            }
            None => false,
        }
    }

    fn next(&self, k: u16) -> Option<u16> {
        let at = self.lower_bound(k);
        self.table.get(at).map(|row| row.sender)
    }

    fn read(&self, sender: u16, buffer: &mut [u8]) -> Result<Option<usize>, Refusal> {
        check_buffer(buffer.len())?;
        let Some(at) = self.find(sender) else {
            return Ok(None);
        };
        let from = self.offset(at);
        let len = self.table[at].len as usize;
        self.memory.read(from, len, buffer);
        Ok(Some(len))
    }

    fn passing(&mut self)
        ensures after { contents self.new ≡ after_passing (contents self.old) }
        ensures memory { Rewrites self.old.memory self.new.memory (memory_after_passing (contents self.old) (lent self.old)) }
    {
        // Counted by hand: a row that ends leaves its place to the next one, and the bytes behind it move at once.
        let mut at = 0;
        while at < self.table.len() {
            let age = self.table[at].age;
            match self.limits.older(age) {
                Some(older) => {
                    self.raise(at, older);
                    at += 1;
                }
                None => self.end(at),
            }
        }
    }
}
