ghost use Rattle.std.specs.Prelude.{◌≡◌, false, [], length};
ghost use Rattle.inbox.specs.Calls.{IfRefused, next_sender, read_answer, buffer_after_read};
ghost use Rattle.trace.specs.States.{made};
ghost use Rattle.trace.specs.Calls.{delivery, drop_of, deliver_answer, after_deliver, drop_answer, after_drop};
ghost use Rattle.trace.specs.Promises.{Promise};
ghost use Rattle.node.specs.Nodes.{state, begun, Begins};

use super::Node;
use super::delivery::join;
use buffer::buffer::Buffer;
use inbox::generic::clear;
use inbox::inbox::Inbox;
use inbox::limits::LONGEST_ITEM;
use kind::kind::Kind;
use program::program::Program;
use refusal::refused::Refusal;
use std::marker::PhantomData;

impl<K: Kind, I: Inbox> Node<K, I> {
    /// A node that holds nobody and has no tree of its own yet. It ends what the inbox holds.
    pub fn make(program: &Program, number: u16, inbox: I) -> Node<K, I>
        ensures value { state I.Inbox.meaning result ≡ made program.now number (I.Inbox.meaning inbox) }
        ensures promise { Begins K.Kind.meaning (begun program.now number (I.Inbox.meaning inbox)) (state I.Inbox.meaning result) }
    {
        let mut inbox = inbox;
        clear(&mut inbox);
        Node {
            program: *program,
            number,
            inbox,
            last: Buffer::empty(),
            kind: PhantomData,
        }
    }

    /// The node's program.
    pub fn program(&self) -> &Program
        ensures { result.now ≡ (state I.Inbox.meaning self.now).program }
    {
        &self.program
    }

    /// The node's number.
    pub fn number(&self) -> u16
        ensures { result ≡ (state I.Inbox.meaning self.now).number }
    {
        self.number
    }

    /// The tree of the latest accepted round; no bytes before the first.
    pub fn last_tree(&self) -> &[u8]
        ensures { result.now ≡ (state I.Inbox.meaning self.now).last }
    {
        self.last.as_slice()
    }

    /// The smallest held sender that is at least `k`.
    pub fn next(&self, k: u16) -> Option<u16>
        ensures { result ≡ next_sender (state I.Inbox.meaning self.now).inbox.items k }
    {
        self.inbox.next(k)
    }

    /// Copies the sender's link and message to the buffer's front, and answers their length.
    pub fn read(&self, sender: u16, buffer: &mut [u8]) -> Result<Option<usize>, Refusal>
        ensures value { result ≡ read_answer (state I.Inbox.meaning self.now).inbox sender (length buffer.old) }
        ensures after { buffer.new ≡ buffer_after_read (state I.Inbox.meaning self.now).inbox sender buffer.old }
    {
        self.inbox.read(sender, buffer)
    }

    /// Holds the sender of a message with its link and its tree, and answers its number.
    pub fn deliver(&mut self, link: &[u8], message: &[u8]) -> Result<u16, Refusal>
        ensures value { result ≡ deliver_answer K.Kind.meaning (state I.Inbox.meaning self.old) link.now message.now }
        ensures after { state I.Inbox.meaning self.new ≡ after_deliver K.Kind.meaning (state I.Inbox.meaning self.old) link.now message.now }
        ensures untouched { IfRefused result (self.new ≡ self.old) }
        ensures promise { Promise K.Kind.meaning (state I.Inbox.meaning self.old) (delivery link.now message.now) [] (state I.Inbox.meaning self.new) }
    {
        let sender = self.check_arriving(link, message)?;
        // An array and a length: there is no heap, and both last for this call.
        let mut item = [0; LONGEST_ITEM];
        let n = join(link, message, &mut item);
        self.inbox.put(sender, &item[..n])?;
        Ok(sender)
    }

    /// Ends that a sender is held, and answers whether it was.
    pub fn drop_sender(&mut self, sender: u16) -> bool
        ensures value { result ≡ drop_answer (state I.Inbox.meaning self.old) sender }
        ensures after { state I.Inbox.meaning self.new ≡ after_drop (state I.Inbox.meaning self.old) sender }
        ensures untouched { result ≡ false → self.new ≡ self.old }
        ensures promise { Promise K.Kind.meaning (state I.Inbox.meaning self.old) (drop_of sender) [] (state I.Inbox.meaning self.new) }
    {
        self.inbox.remove(sender)
    }
}
