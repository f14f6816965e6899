ghost use Rattle.std.specs.Prelude.{◌≡◌, ◌+◌, ◌<◌, ◌≤◌, length, IfSome, IfOk, option_copied, option_map};
ghost use Rattle.refusal.specs.Outcomes.{mapped};
ghost use Rattle.record.specs.Fields.{pair_at};
ghost use Rattle.record.specs.Forms.{Formed};
ghost use Rattle.record.specs.Shapes.{counted_at, shown, shape_of, shape_at, next_shape, shown_end};

use refusal::cause::Cause;
use refusal::refused::Refusal;

/// The most entries of a record.
pub const MOST_ENTRIES: usize = 17;

// That a record is well formed is asked, and no invariant: it speaks of a width and a message that a record does not keep.

/// A record as it stands in a message, from `offset` on: its parts are parts of the message.
#[derive(Clone, Copy, Debug, PartialEq, Eq)]
pub enum Record<'m> {
    /// Of an if: its place, and one byte, 1 for the first branch and 0 for the second.
    Choice {
        offset: usize,
        place: &'m [u8],
        choice: &'m [u8],
    },
    /// Of an exchange or share: its place, the default value, how many entries there are, and they.
    Exchange {
        offset: usize,
        place: &'m [u8],
        default: &'m [u8],
        count: usize,
        entries: &'m [u8],
    },
}

/// Which body a due record has: an if's choice, or what an exchange or share sends.
#[derive(Clone, Copy, Debug, PartialEq, Eq)]
pub enum Body {
    Choice,
    Exchange,
}

// No conversion of a type: it is at an offset of given bytes, and a clause says which.

/// The number in the two bytes at `at`. An inner function: the caller knows that they are there.
pub fn pair(bytes: &[u8], at: usize) -> usize
    requires { at + 2 ≤ length bytes.now }
    ensures is { result ≡ pair_at bytes.now at }
    ensures small { result < 65536 }
{
    u16::from_be_bytes([bytes[at], bytes[at + 1]]) as usize
}

/// What the record that begins at `at` counts: the bytes behind its count, if the message has them all.
pub fn counted(message: &[u8], at: usize) -> Option<&[u8]>
    ensures is { option_copied result ≡ counted_at message.now at }
    ensures small { IfSome result (λ x. length x.now < 65536) }
    ensures inside { IfSome result (λ x. at + 2 + length x.now ≤ length message.now) }
{
    let [high, low, rest @ ..] = message.get(at..)? else {
        return None;
    };
    rest.get(..u16::from_be_bytes([*high, *low]) as usize)
}

// The record at `offset` of which these bytes are counted, where one with this body is due.
fn framed<'m>(body: Body, width: usize, offset: usize, counted: &'m [u8]) -> Option<Record<'m>>
    requires { length counted.now < 65536 }
    ensures is { option_map shown result ≡ shape_of body width offset counted.now }
    ensures formed { IfSome result (λ x. Formed width (offset + 2 + length counted.now) (shown x)) }
{
    let (place, rest) = counted.split_at_checked(2)?;
    match body {
        Body::Choice if rest.len() == 1 => Some(Record::Choice {
            offset,
            place,
            choice: rest,
        }),
        Body::Choice => None,
        Body::Exchange => {
            let (default, rest) = rest.split_at_checked(width)?;
            let (&count, entries) = rest.split_first()?;
            let count = count as usize;
            if count > MOST_ENTRIES || entries.len() != count * (2 + width) {
                return None;
            }
            Some(Record::Exchange {
                offset,
                place,
                default,
                count,
                entries,
            })
        }
    }
}

/// The record that begins at `at`, where one with this body is due, at values of `width` bytes.
pub fn record_at<'m>(
    body: Body,
    width: usize,
    message: &'m [u8],
    at: usize,
) -> Result<Record<'m>, Refusal>
    ensures is { mapped shown result ≡ shape_at body width message.now at }
    ensures formed { IfOk result (λ x. Formed width (length message.now) (shown x)) }
{
    let counted = counted(message, at).ok_or(Refusal {
        cause: Cause::MessageCut,
        position: at,
    })?;
    framed(body, width, at, counted).ok_or(Refusal {
        cause: Cause::RecordCount,
        position: at,
    })
}

/// The record that begins at `at` in any bytes, and where it ends. It needs no program: a count of 3 tells an if's record.
pub fn next_record<'m>(width: usize, message: &'m [u8], at: usize) -> Option<(Record<'m>, usize)>
    ensures is { shown_end result ≡ next_shape width message.now at }
    ensures ends { IfSome result (λ x. (at < x.1) × (x.1 ≤ length message.now)) }
    ensures formed { IfSome result (λ x. Formed width (length message.now) (shown x.0)) }
{
    let counted = counted(message, at)?;
    let body = if counted.len() == 3 {
        Body::Choice
    } else {
        Body::Exchange
    };
    let record = record_at(body, width, message, at).ok()?;
    Some((record, at + 2 + counted.len()))
}
