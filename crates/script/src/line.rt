ghost use Rattle.std.specs.Prelude.{◌≡◌, ◌≢◌, [], MatchOption, alloc_error};
ghost use Rattle.hex.specs.declared.error.FromHexError.TheVariants.{OutOfMemory};
ghost use Rattle.script.specs.declared.line.LineError.TheVariants.{Memory, NotHexadecimal};
ghost use Rattle.script.specs.Script.{first_word, other_words};

use crate::decimal::decimal;
use crate::hexadecimal;
use crate::text::{cut, first_word};
use hex::FromHexError;
use inbox::limits::LONGEST_ITEM;
use std::alloc::{AllocError, Global};
use thiserror::Error;

/// A call of a script.
#[derive(Drop)]
pub enum Call {
    /// Check these bytes as a program.
    Program(Vec<u8>),
    /// Read these bytes as a message to the node of this number.
    Tree(u16, Vec<u8>),
    /// Make a slot inbox: sender limit and life.
    SlotInbox(usize, usize),
    /// Make a packed inbox: sender limit, life and bytes of memory.
    PackedInbox(usize, usize, usize),
    /// A call on the inbox that was made last.
    OnInbox(InboxCall),
}

/// A call on an inbox.
#[derive(Drop)]
pub enum InboxCall {
    /// Put an item of a sender.
    Put(u16, Vec<u8>),
    /// End a sender's item.
    Remove(u16),
    /// The smallest held sender from a number on.
    Next(u16),
    /// Read a sender's item into a buffer of so many bytes.
    Read(u16, usize),
    /// Let a round pass.
    Pass,
}

/// Why a line gives no call.
#[derive(Debug, Drop, Error)]
pub enum LineError {
    #[error("no such call")]
    NoSuchCall,
    #[error("an inbox is slot or packed")]
    NoSuchInbox,
    #[error("a number is missing")]
    NumberMissing,
    #[error("a number is not in decimal, or is above 4,294,967,295")]
    NotDecimal,
    #[error("a node number is above 65,535")]
    NodeTooLarge,
    #[error("the bytes are missing")]
    BytesMissing,
    #[error("bytes are not in hexadecimal")]
    NotHexadecimal,
    #[error("a word too many")]
    WordTooMany,
    #[error(transparent)]
    Memory(AllocError),
}

// By hand: of the library's errors only memory is told apart.
impl From<FromHexError> for LineError {
    ghost from_gives = { λ e r. (e ≡ OutOfMemory → r ≡ Memory alloc_error) × (e ≢ OutOfMemory → r ≡ NotHexadecimal) };

    fn from(e: FromHexError) -> LineError {
        match e {
            FromHexError::OutOfMemory => LineError::Memory(AllocError),
            _ => LineError::NotHexadecimal,
        }
    }
}

// The words of a line that are still to be read.
#[derive(Drop)]
struct Words<'a> {
    rest: &'a [u8],
}

impl<'a> Words<'a> {
    // The next word, if there is one.
    fn word(&mut self) -> Option<&'a [u8]>
        ensures word { MatchOption result (first_word self.old.rest.now ≡ []) (λ w. w.now ≡ first_word self.old.rest.now) }
        ensures rest { self.new.rest.now ≡ other_words self.old.rest.now }
    {
        let (word, rest) = first_word(self.rest);
        self.rest = rest;
        if word.is_empty() { None } else { Some(word) }
    }

    // Nothing follows the words that were read.
    fn end(&mut self) -> Result<(), LineError> {
        match self.word() {
            None => Ok(()),
            Some(_) => Err(LineError::WordTooMany),
        }
    }

    // The next word as a number, if there is one.
    fn optional_number(&mut self) -> Result<Option<usize>, LineError> {
        let Some(word) = self.word() else {
            return Ok(None);
        };
        let n = decimal(word).ok_or(LineError::NotDecimal)?;
        Ok(Some(n as usize))
    }

    // The next word as a number.
    fn number(&mut self) -> Result<usize, LineError> {
        self.optional_number()?.ok_or(LineError::NumberMissing)
    }

    // The next word as a node number.
    fn node(&mut self) -> Result<u16, LineError> {
        u16::try_from(self.number()?).map_err(|_| LineError::NodeTooLarge)
    }

    // The last word as bytes.
    fn last_bytes(&mut self, heap: Global) -> Result<Vec<u8>, LineError> {
        let word = self.word().ok_or(LineError::BytesMissing)?;
        self.end()?;
        Ok(hexadecimal::bytes(heap, word)?)
    }

    // `slot SENDERS LIFE` or `packed SENDERS LIFE BYTES`
    fn inbox(&mut self) -> Result<Call, LineError> {
        match self.word() {
            Some(b"slot") => Ok(Call::SlotInbox(self.number()?, self.number()?)),
            Some(b"packed") => Ok(Call::PackedInbox(
                self.number()?,
                self.number()?,
                self.number()?,
            )),
            _ => Err(LineError::NoSuchInbox),
        }
    }
}

/// Reads a line, which may be blank: its first word names the call, and `#` starts a comment.
pub fn read(heap: Global, line: &[u8]) -> Result<Option<Call>, LineError> {
    let (said, _) = cut(line, b'#');
    let mut words = Words { rest: said };
    let Some(name) = words.word() else {
        return Ok(None);
    };
    let call = match name {
        b"program" => Call::Program(words.last_bytes(heap)?),
        b"tree" => Call::Tree(words.node()?, words.last_bytes(heap)?),
        b"inbox" => words.inbox()?,
        b"put" => Call::OnInbox(InboxCall::Put(words.node()?, words.last_bytes(heap)?)),
        b"remove" => Call::OnInbox(InboxCall::Remove(words.node()?)),
        b"next" => Call::OnInbox(InboxCall::Next(words.node()?)),
        b"read" => Call::OnInbox(InboxCall::Read(
            words.node()?,
            // The buffer is as long as the longest item, if its length is not said.
            words.optional_number()?.unwrap_or(LONGEST_ITEM),
        )),
        b"pass" => Call::OnInbox(InboxCall::Pass),
        _ => return Err(LineError::NoSuchCall),
    };
    words.end()?;
    Ok(Some(call))
}
