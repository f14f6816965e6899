ghost use Rattle.std.specs.Prelude.{◌≡◌, ◌+◌, ◌≤◌, length, OnOk};
ghost use Rattle.record.specs.Headers.{header as header_of, header_length, most_bytes};

use refusal::cause::Cause;
use refusal::refused::Refusal;

/// The version of trees.
pub const VERSION: u8 = 1;

/// Where the count of what follows it begins.
pub const COUNT_OFFSET: usize = 1;

/// Where the program's number begins.
pub const PROGRAM_OFFSET: usize = 3;

/// Where the sender begins.
pub const SENDER_OFFSET: usize = 7;

/// How long the header is: the records begin behind it.
pub const HEADER_LENGTH: usize = 9;

/// The most bytes of a message.
pub const MOST_BYTES: usize = 2048;

/// The sender of a message to the node `me` that runs the program of this number.
pub fn read_header(program: u32, me: u16, message: &[u8]) -> Result<u16, Refusal>
    ensures is { result ≡ header_of program me message.now }
    ensures fits { OnOk result ((header_length ≤ length message.now) × (length message.now ≤ most_bytes)) }
{
    if message.len() > MOST_BYTES {
        return Err(Refusal {
            cause: Cause::MessageLength,
            position: 0,
        });
    }
    let [version, high, low, a, b, c, d, x, y, records @ ..] = message else {
        return Err(Refusal {
            cause: Cause::MessageLength,
            position: 0,
        });
    };
    if *version != VERSION {
        return Err(Refusal {
            cause: Cause::MessageVersion,
            position: 0,
        });
    }
    if u16::from_be_bytes([*high, *low]) as usize
        != HEADER_LENGTH + records.len() - (COUNT_OFFSET + 2)
    {
        return Err(Refusal {
            cause: Cause::MessageCount,
            position: COUNT_OFFSET,
        });
    }
    if u32::from_be_bytes([*a, *b, *c, *d]) != program {
        return Err(Refusal {
            cause: Cause::OtherProgram,
            position: PROGRAM_OFFSET,
        });
    }
    let sender = u16::from_be_bytes([*x, *y]);
    if sender == me {
        return Err(Refusal {
            cause: Cause::OwnMessage,
            position: SENDER_OFFSET,
        });
    }
    Ok(sender)
}
