ghost use Rattle.std.specs.Prelude.{◌≡◌, false, length};
ghost use Rattle.inbox.specs.Contents.{Contents, Lawful};
ghost use Rattle.inbox.specs.Calls.{IfRefused, put_answer, after_put, holds, after_remove, next_sender, read_answer, buffer_after_read, after_passing};

use refusal::refused::Refusal;

/// An inbox: it holds one item a sender, within a sender limit and a byte limit, each for a life.
pub trait Inbox {
    /// What the inbox holds.
    ghost meaning: { Self → Contents };

    /// What always holds of that.
    ghost lawful: { (x : Self) → Lawful (meaning x) };

    // `untouched` stands at each call that changes nothing: no type says that a value is what it was before.

    /// Holds the item at age 0, in place of the sender's earlier one.
    fn put(&mut self, sender: u16, item: &[u8]) -> Result<(), Refusal>
        ensures value { result ≡ put_answer (meaning self.old) sender item.now }
        ensures after { meaning self.new ≡ after_put (meaning self.old) sender item.now }
        ensures untouched { IfRefused result (self.new ≡ self.old) };

    /// Ends the sender's item, and answers whether there was one.
    fn remove(&mut self, sender: u16) -> bool
        ensures value { result ≡ holds (meaning self.old).items sender }
        ensures after { meaning self.new ≡ after_remove (meaning self.old) sender }
        ensures untouched { result ≡ false → self.new ≡ self.old };

    /// The smallest held sender that is at least `k`.
    fn next(&self, k: u16) -> Option<u16>
        ensures { result ≡ next_sender (meaning self.now).items k };

    /// Copies the sender's item to the buffer's front, and answers its length.
    fn read(&self, sender: u16, buffer: &mut [u8]) -> Result<Option<usize>, Refusal>
        ensures value { result ≡ read_answer (meaning self.now) sender (length buffer.old) }
        ensures after { buffer.new ≡ buffer_after_read (meaning self.now) sender buffer.old };

    /// Raises every age by one, and ends the items that reach the life.
    fn passing(&mut self)
        ensures { meaning self.new ≡ after_passing (meaning self.old) };
}
