use crate::call::{Answer, Call};
use refusal::cause::Cause;
use std::fmt;

/// How often each call was made and each refusal was drawn, and how often answers or buffers differed.
#[derive(Clone, Copy, Default)]
pub struct Counts {
    put: u32,
    remove: u32,
    next: u32,
    read: u32,
    passing: u32,
    item_too_long: u32,
    senders_full: u32,
    bytes_full: u32,
    buffer_short: u32,
    found: u32,
    differences: u32,
}

fn count_one(n: &mut u32) {
    *n = n.saturating_add(1);
}

impl Counts {
    fn of_call(&mut self, call: Call) -> &mut u32 {
        match call {
            Call::Put { .. } => &mut self.put,
            Call::Remove { .. } => &mut self.remove,
            Call::Next { .. } => &mut self.next,
            Call::Read { .. } => &mut self.read,
            Call::Passing => &mut self.passing,
        }
    }

    // Other refusals cannot come, so each counts as a difference.
    fn of_refusal(&mut self, cause: Cause) -> &mut u32 {
        match cause {
            Cause::ItemTooLong => &mut self.item_too_long,
            Cause::SendersFull => &mut self.senders_full,
            Cause::BytesFull => &mut self.bytes_full,
            Cause::BufferShort => &mut self.buffer_short,
            _ => &mut self.differences,
        }
    }

    /// Counts a call, its answer, and whether all agreed on it.
    pub fn count(&mut self, call: Call, answer: Answer, agreed: bool) {
        count_one(self.of_call(call));
        match answer {
            Answer::Refused(refusal) => count_one(self.of_refusal(refusal.cause)),
            Answer::Held(true) | Answer::Sender(Some(_)) | Answer::Length(Some(_)) => {
                count_one(&mut self.found)
            }
            _ => {}
        }
        if !agreed {
            count_one(&mut self.differences);
        }
    }
}

// By hand: no derive prints eleven counts as a line.
impl fmt::Display for Counts {
    fn fmt<W: fmt::Write>(&self, f: &mut fmt::Formatter<W>) -> fmt::Result {
        write!(
            f,
            "put {}, remove {}, next {}, read {}, passing {}; ",
            self.put, self.remove, self.next, self.read, self.passing
        )?;
        write!(
            f,
            "refused 27 {}, 28 {}, 29 {}, 31 {}; ",
            self.item_too_long, self.senders_full, self.bytes_full, self.buffer_short
        )?;
        write!(f, "found {}; differences {}", self.found, self.differences)
    }
}
