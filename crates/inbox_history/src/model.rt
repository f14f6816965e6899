use crate::call::{Answer, Call};
use crate::{pattern, senders};
use inbox::limits::{LONGEST_ITEM, Limits};
use refusal::cause::Cause;
use refusal::refused::Refusal;

#[derive(Clone, Copy)]
struct Held {
    sender: u16,
    age: u8,
    len: usize,
    first: u8,
}

impl Held {
    // The item when a round has passed, unless it ends with that.
    fn older(self, life: usize) -> Option<Held> {
        let age = self.age.saturating_add(1);
        if age as usize == life {
            None
        } else {
            Some(Held { age, ..self })
        }
    }
}

/// An inbox as plain as can be: for each sender of a history, how the item was told that it put. It has no bytes of
/// items, so it is no `Inbox`.
#[derive(Drop)]
pub struct Model {
    limits: Limits,
    byte_limit: usize,
    // By rising sender. An array and no map: a map can run out of memory, and a history cannot fail.
    held: [Option<Held>; senders::COUNT],
}

fn refused<T>(cause: Cause) -> Result<T, Refusal> {
    Err(Refusal { cause, position: 0 })
}

impl Model {
    /// A model that holds nothing.
    pub fn new(limits: Limits, byte_limit: usize) -> Model {
        Model {
            limits,
            byte_limit,
            held: [None; senders::COUNT],
        }
    }

    // How many other senders are held, and how many bytes they have.
    fn others(&self, sender: u16) -> (usize, usize) {
        self.held
            .iter()
            .flatten()
            .filter(|item| item.sender != sender)
            .fold((0, 0), |(count, bytes): (usize, usize), item| {
                (count.saturating_add(1), bytes.saturating_add(item.len))
            })
    }

    fn put(&mut self, sender: u16, len: usize, first: u8) -> Result<(), Refusal> {
        let (count, bytes) = self.others(sender);
        if len > LONGEST_ITEM {
            return refused(Cause::ItemTooLong);
        }
        if count >= self.limits.sender_limit() {
            return refused(Cause::SendersFull);
        }
        if bytes.saturating_add(len) > self.byte_limit {
            return refused(Cause::BytesFull);
        }
        self.held[senders::index(sender)] = Some(Held {
            sender,
            age: 0,
            len,
            first,
        });
        Ok(())
    }

    fn remove(&mut self, sender: u16) -> bool {
        self.held[senders::index(sender)].take().is_some()
    }

    // Written on its own, though a slot inbox does alike: what is compared shares no code.
    fn next(&self, k: u16) -> Option<u16> {
        self.held
            .iter()
            .flatten()
            .map(|item| item.sender)
            .find(|sender| *sender >= k)
    }

    fn read(&self, sender: u16, buffer: &mut [u8]) -> Result<Option<usize>, Refusal> {
        if buffer.len() < LONGEST_ITEM {
            return refused(Cause::BufferShort);
        }
        let Some(item) = self.held[senders::index(sender)] else {
            return Ok(None);
        };
        pattern::fill(buffer, item.len, item.first);
        Ok(Some(item.len))
    }

    fn passing(&mut self) {
        let life = self.limits.life();
        for held in &mut self.held {
            *held = held.and_then(|item| item.older(life));
        }
    }

    /// Makes the call, a read with the front of the buffer.
    pub fn perform(&mut self, call: Call, buffer: &mut [u8]) -> Answer {
        match call {
            Call::Put { sender, len, first } => Answer::from(self.put(sender, len, first)),
            Call::Remove { sender } => Answer::Held(self.remove(sender)),
            Call::Next { k } => Answer::Sender(self.next(k)),
            Call::Read { sender, room } => {
                let room = room.min(buffer.len());
                Answer::from(self.read(sender, &mut buffer[..room]))
            }
            Call::Passing => {
                self.passing();
                Answer::Done
            }
        }
    }
}
