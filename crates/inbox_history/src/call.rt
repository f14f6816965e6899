ghost use Rattle.std.specs.Prelude.{◌≡◌, MatchResult};
ghost use Rattle.inbox_history.specs.declared.call.Answer.TheVariants.{Done, Refused, Length};

use refusal::refused::Refusal;

// Not the call of a script: that one holds an item's bytes, on the heap.

/// A call of a history. The item of a put is told by its length and its first byte, the buffer of a read by its length.
#[derive(Clone, Copy)]
pub enum Call {
    Put { sender: u16, len: usize, first: u8 },
    Remove { sender: u16 },
    Next { k: u16 },
    Read { sender: u16, room: usize },
    Passing,
}

/// What a call answers.
#[derive(Clone, Copy, PartialEq, Eq)]
pub enum Answer {
    Done,
    Refused(Refusal),
    Held(bool),
    Sender(Option<u16>),
    Length(Option<usize>),
}

// Two conversions: one for any T that turns into an answer would need two more, of what T is.

impl From<Result<(), Refusal>> for Answer {
    ghost from_gives = { λ put answer. MatchResult put (λ _. answer ≡ Done) (λ refusal. answer ≡ Refused refusal) };

    fn from(put: Result<(), Refusal>) -> Answer {
        match put {
            Ok(()) => Answer::Done,
            Err(refusal) => Answer::Refused(refusal),
        }
    }
}

impl From<Result<Option<usize>, Refusal>> for Answer {
    ghost from_gives = { λ read answer. MatchResult read (λ len. answer ≡ Length len) (λ refusal. answer ≡ Refused refusal) };

    fn from(read: Result<Option<usize>, Refusal>) -> Answer {
        match read {
            Ok(len) => Answer::Length(len),
            Err(refusal) => Answer::Refused(refusal),
        }
    }
}
