ghost use Rattle.std.specs.Prelude.{◌≡◌, IfOk, OnSome, if◌then◌else◌, nat_eq, slice_index};
ghost use Rattle.std.specs.Iterator.{IsFinite, IsNearerEnd};
ghost use Rattle.refusal.specs.Outcomes.{mapped};
ghost use Rattle.kind.specs.Numbers.{numbers as meaning_of_numbers};
ghost use Rattle.kind.specs.LabelSets.{label_sets};
ghost use Rattle.program.specs.Verdict.{verdict};
ghost use Rattle.program.specs.Programs.{shown};

use crate::kinds::BuiltIn;
use crate::show::{Accepted, Hex, Tree};
use inbox::inbox::Inbox;
use inbox::limits::Limits;
use kind::label_sets::LabelSets;
use kind::numbers::Numbers;
use packed_inbox::packed_inbox::PackedInbox;
use program::check::check;
use program::program::Program;
use refusal::refused::Refusal;
use script::line;
use script::line::{Call, InboxCall, LineError};
use slot_inbox::slot_inbox::SlotInbox;
use std::io;
use thiserror::Error;
use tree::message;

// The inbox of a script: none before it asks for one. With a case for that: an `Option` of a type that holds lent memory
// is not covered as a type argument.
#[derive(Drop)]
enum Made<'m> {
    None,
    Slot(SlotInbox),
    Packed(PackedInbox<'m>),
}

// An inbox that a script asks for.
#[derive(Clone, Copy)]
enum Making {
    Slot(Limits),
    Packed(Limits, usize),
}

// Why a line was not played to its end.
#[derive(Debug, Drop, Error)]
enum PlayError {
    #[error(transparent)]
    Refused(#[from] Refusal),
    #[error(transparent)]
    Unreadable(LineError),
    #[error("no program was accepted yet")]
    NoProgram,
    #[error("there is no inbox yet")]
    NoInbox,
    #[error(transparent)]
    Io(#[from] io::Error),
}

// By hand: a line that finds no memory is a failure of the program, and no unreadable line.
impl From<LineError> for PlayError {
    fn from(e: LineError) -> PlayError {
        match e {
            LineError::Memory(e) => PlayError::Io(io::Error::from(e)),
            e => PlayError::Unreadable(e),
        }
    }
}

// A block is checked for the kind that its byte 7 names.
// The same cases stand in the function below: no closure is generic in the kind.
fn check_block(block: &[u8]) -> Result<Program, Refusal>
    ensures { mapped shown result ≡ (if nat_eq (slice_index block.now 7) 2 then verdict label_sets block.now else verdict meaning_of_numbers block.now) }
{
    match BuiltIn::from(block.get(7).copied().unwrap_or(0)) {
        BuiltIn::LabelSets => check::<LabelSets>(block),
        BuiltIn::Numbers => check::<Numbers>(block),
    }
}

// A message is read for the kind that its program was checked for.
fn read_message(p: &Program, node: u16, bytes: &[u8]) -> Result<u16, Refusal> {
    match BuiltIn::from(p.kind()) {
        BuiltIn::LabelSets => message::read::<LabelSets>(p, node, bytes),
        BuiltIn::Numbers => message::read::<Numbers>(p, node, bytes),
    }
}

/// Plays the calls of a script, and keeps what they left: the program last accepted, and how many calls there were,
/// refusals, and lines that could not be read.
#[derive(Drop)]
pub struct Session<'a> {
    rt: &'a HostRuntime,
    program: Option<Program>,
    line: u64,
    calls: u64,
    refused: u64,
    unread: u64,
}

impl<'a> Session<'a> {
    pub fn new(rt: &'a HostRuntime) -> Session<'a> {
        Session {
            rt,
            program: None,
            line: 0,
            calls: 0,
            refused: 0,
            unread: 0,
        }
    }

    fn program(&mut self, block: &[u8]) -> Result<(), PlayError> {
        let p = check_block(block)?;
        println!(self.rt; "{}", Accepted(&p))?;
        self.program = Some(p);
        Ok(())
    }

    fn tree(&self, node: u16, message: &[u8]) -> Result<(), PlayError> {
        let Some(p) = &self.program else {
            return Err(PlayError::NoProgram);
        };
        let sender = read_message(p, node, message)?;
        let width = p.width();
        println!(self.rt;
            "{}",
            Tree {
                width,
                sender,
                message
            }
        )?;
        Ok(())
    }

    fn read<I: Inbox>(&self, inbox: &I, sender: u16, room: usize) -> Result<(), PlayError> {
        let mut buffer = vec![in self.rt.alloc(); 0u8; room].map_err(io::Error::from)?;
        match inbox.read(sender, buffer.as_mut_slice())? {
            Some(n) => println!(self.rt; "read {sender}: {}", Hex(&buffer.as_slice()[..n]))?,
            None => println!(self.rt; "{sender} was not held")?,
        }
        Ok(())
    }

    // A call on an inbox.
    fn on_inbox<I: Inbox>(&self, inbox: &mut I, call: InboxCall) -> Result<(), PlayError> {
        match call {
            InboxCall::Put(sender, item) => {
                inbox.put(sender, item.as_slice())?;
                println!(self.rt; "put {sender}")?;
            }
            InboxCall::Remove(sender) => {
                if inbox.remove(sender) {
                    println!(self.rt; "removed {sender}")?;
                } else {
                    println!(self.rt; "{sender} was not held")?;
                }
            }
            InboxCall::Next(k) => match inbox.next(k) {
                Some(sender) => println!(self.rt; "next {sender}")?,
                None => println!(self.rt; "next none")?,
            },
            InboxCall::Read(sender, room) => self.read(inbox, sender, room)?,
            InboxCall::Pass => {
                inbox.passing();
                println!(self.rt; "passed")?;
            }
        }
        Ok(())
    }

    // The limits of an inbox, if they are in range: it is made then.
    fn make(&self, senders: usize, life: usize) -> Result<Limits, PlayError> {
        let limits = Limits::check(senders, life)?;
        println!(self.rt; "inbox made")?;
        Ok(limits)
    }

    // Plays one call. An inbox that it asks for is answered, for another inbox cannot be put in the place of this one.
    fn play(&mut self, made: &mut Made, call: Call) -> Result<Option<Making>, PlayError> {
        match call {
            Call::Program(block) => self.program(block.as_slice())?,
            Call::Tree(node, message) => self.tree(node, message.as_slice())?,
            Call::SlotInbox(senders, life) => {
                return Ok(Some(Making::Slot(self.make(senders, life)?)));
            }
            Call::PackedInbox(senders, life, room) => {
                return Ok(Some(Making::Packed(self.make(senders, life)?, room)));
            }
            Call::OnInbox(call) => match made {
                Made::None => return Err(PlayError::NoInbox),
                Made::Slot(inbox) => self.on_inbox(inbox, call)?,
                Made::Packed(inbox) => self.on_inbox(inbox, call)?,
            },
        }
        Ok(None)
    }

    fn play_line(&mut self, made: &mut Made, text: &[u8]) -> io::Result<Option<Making>> {
        self.line = self.line.saturating_add(1);
        let played = match line::read(self.rt.alloc(), text) {
            Ok(Some(call)) => self.play(made, call),
            Ok(None) => return Ok(None),
            Err(e) => Err(PlayError::from(e)),
        };
        match played {
            Ok(asked) => {
                self.calls = self.calls.saturating_add(1);
                Ok(asked)
            }
            Err(PlayError::Refused(r)) => {
                self.calls = self.calls.saturating_add(1);
                self.refused = self.refused.saturating_add(1);
                println!(self.rt; "{r}")?;
                Ok(None)
            }
            Err(PlayError::Io(e)) => Err(e),
            Err(what) => {
                self.unread = self.unread.saturating_add(1);
                println!(self.rt; "line {}: {what}", self.line)?;
                Ok(None)
            }
        }
    }

    // Plays lines over an inbox, until one asks for another inbox or none is left. Answers what is asked for.
    fn play_lines<'s, L: Iterator<Item = &'s [u8]>>(
        &mut self,
        made: &mut Made,
        lines: &mut L,
    ) -> io::Result<Option<Making>>
        requires can { L.can_next lines.old }
        requires ends { IsFinite (L.remaining lines.old) }
        ensures { IfOk result (λ asked. OnSome asked (IsNearerEnd L.can_next L.remaining lines.old lines.new)) }
    {
        // No `for`: after one over a reference a proof does not know what is left of the lines.
        while let Some(text) = lines.next() {
            let asked = self.play_line(made, text)?;
            if asked.is_some() {
                return Ok(asked);
            }
        }
        Ok(None)
    }

    /// Plays a script.
    pub fn play_script(&mut self, script: &[u8]) -> io::Result<()> {
        let mut lines = script.split(|b| *b == b'\n');
        let mut asked = self.play_lines(&mut Made::None, &mut lines)?;
        // An inbox and its memory live until a line asks for another.
        while let Some(making) = asked {
            asked = match making {
                Making::Slot(limits) => {
                    let mut made = Made::Slot(SlotInbox::new(limits));
                    self.play_lines(&mut made, &mut lines)?
                }
                Making::Packed(limits, room) => {
                    let mut memory = vec![in self.rt.alloc(); 0u8; room]?;
                    let mut made = Made::Packed(PackedInbox::new(limits, memory.as_mut_slice()));
                    self.play_lines(&mut made, &mut lines)?
                }
            };
        }
        Ok(())
    }

    /// Prints what was done.
    pub fn sum_up(&self) -> io::Result<()> {
        println!(self.rt; "{} calls, {} refused", self.calls, self.refused)?;
        if self.unread > 0 {
            println!(self.rt; "{} lines could not be read", self.unread)?;
        }
        Ok(())
    }
}
