ghost use Rattle.std.specs.Prelude.{◌-◌, length};
ghost use Rattle.std.specs.Iterator.{at_most};

use program::program::Program;
use record::header::HEADER_LENGTH;
use record::record::{Record, next_record};
use std::fmt;

/// Bytes in hexadecimal, `-` for none.
#[derive(Clone, Copy)]
pub struct Hex<'a>(pub &'a [u8]);

// By hand: the kit's `hex` gives a text on the heap or fills a buffer.
impl fmt::Display for Hex<'_> {
    fn fmt<W: fmt::Write>(&self, f: &mut fmt::Formatter<W>) -> fmt::Result {
        if self.0.is_empty() {
            return f.write_str("-");
        }
        for b in self.0 {
            write!(f, "{b:02X}")?;
        }
        Ok(())
    }
}

/// A program that was accepted.
#[derive(Clone, Copy)]
pub struct Accepted<'a>(pub &'a Program);

impl fmt::Display for Accepted<'_> {
    fn fmt<W: fmt::Write>(&self, f: &mut fmt::Formatter<W>) -> fmt::Result {
        let p = self.0;
        write!(
            f,
            "program {}: kind {}, sensors {}, functions {}, size {}, depth {}, weight {}, places {}",
            p.number(),
            p.kind(),
            p.sensors(),
            p.functions(),
            p.size(),
            p.depth(),
            p.weight(),
            p.places()
        )
    }
}

// The number in the first two bytes, and what follows it. 0 for fewer: only parts of accepted messages are shown.
fn numbered(bytes: &[u8]) -> (u16, &[u8]) {
    match bytes {
        [high, low, rest @ ..] => (u16::from_be_bytes([*high, *low]), rest),
        _ => (0, bytes),
    }
}

// A record of a message.
#[derive(Clone, Copy)]
struct Shown<'m>(Record<'m>);

impl fmt::Display for Shown<'_> {
    fn fmt<W: fmt::Write>(&self, f: &mut fmt::Formatter<W>) -> fmt::Result {
        match self.0 {
            Record::Choice { place, choice, .. } => {
                let (place, _) = numbered(place);
                let branch = match choice {
                    [1] => "first",
                    _ => "second",
                };
                write!(f, "place {place}: {branch} branch")
            }
            Record::Exchange {
                place,
                default,
                entries,
                ..
            } => {
                let (place, _) = numbered(place);
                write!(f, "place {place}: default {}", Hex(default))?;
                // An entry is a node number and a value.
                for entry in entries.chunks_exact(default.len().saturating_add(2)) {
                    let (number, value) = numbered(entry);
                    write!(f, ", {number}: {}", Hex(value))?;
                }
                Ok(())
            }
        }
    }
}

// The records of a message from a position on.
#[derive(Clone, Copy)]
struct Records<'m> {
    width: usize,
    message: &'m [u8],
    at: usize,
}

impl<'m> Iterator for Records<'m> {
    type Item = Record<'m>;

    ghost remaining = { λ s. at_most (length s.message.now - s.at) };

    fn next(&mut self) -> Option<Record<'m>> {
        let (record, end) = next_record(self.width, self.message, self.at)?;
        self.at = end;
        Some(record)
    }
}

/// The tree of a message that was accepted, whose values have `width` bytes.
#[derive(Clone, Copy)]
pub struct Tree<'m> {
    pub width: usize,
    pub sender: u16,
    pub message: &'m [u8],
}

impl fmt::Display for Tree<'_> {
    fn fmt<W: fmt::Write>(&self, f: &mut fmt::Formatter<W>) -> fmt::Result {
        let records = Records {
            width: self.width,
            message: self.message,
            at: HEADER_LENGTH,
        };
        write!(f, "tree of {}: {} records", self.sender, records.count())?;
        for record in records {
            write!(f, "\n{}", Shown(record))?;
        }
        Ok(())
    }
}
