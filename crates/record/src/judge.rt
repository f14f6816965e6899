ghost use Rattle.std.specs.Prelude.{◌≡◌, ℕ, ◌+◌, ◌^◌, ◌<◌, ◌≤◌, length, IfOk, ◌==◌};
ghost use Rattle.refusal.specs.Outcomes.{mapped, must};
ghost use Rattle.refusal.specs.declared.cause.Cause.TheVariants.{PlaceNotDue};
ghost use Rattle.record.specs.Fields.{pair_at};
ghost use Rattle.record.specs.Forms.{Formed};
ghost use Rattle.record.specs.Headers.{most_bytes};
ghost use Rattle.record.specs.Records.{allowed, behind, entries as entries_of, judged, next_low, record_at};
ghost use Rattle.record.specs.Shapes.{shown};
ghost use Rattle.record.specs.Trees.{is_first};

use crate::record::{Body, Record, pair, record_at};
use kind::kind::Kind;
use refusal::cause::Cause;
use refusal::refused::Refusal;

// The value in these W bytes, which stand in the message at `at`.
fn value<K: Kind>(bytes: &[u8], at: usize) -> Result<K::Value, Refusal>
    requires { length bytes.now ≡ K.Kind.meaning.width }
    ensures { result ≡ allowed at (K.Kind.meaning.read bytes.now) }
{
    K::read(bytes).ok_or(Refusal {
        cause: Cause::ValueRefused,
        position: at,
    })
}

// Checks an entry, which stands in the message at `at`: its number is at least `low`, and its value is not the default.
// Answers the least number of the next.
fn check_entry<K: Kind>(
    default: K::Value,
    at: usize,
    entry: &[u8],
    low: usize,
) -> Result<usize, Refusal>
    requires long { length entry.now ≡ 2 + K.Kind.meaning.width }
    requires short { at < 2 ^ 32 }
    ensures is { result ≡ next_low K.Kind.meaning default at entry.now low }
    ensures small { IfOk result (λ x. x ≤ 65536) }
{
    let number = pair(entry, 0);
    let v = value::<K>(&entry[2..], at + 2)?;
    if number < low {
        return Err(Refusal {
            cause: Cause::EntryRefused,
            position: at,
        });
    }
    if K::same(v, default) {
        return Err(Refusal {
            cause: Cause::EntryRefused,
            position: at + 2,
        });
    }
    Ok(number + 1)
}

// Whether entries rise, each with a value that is not the default. They stand in the message from `base` on.
fn check_entries<K: Kind>(default: K::Value, base: usize, entries: &[u8]) -> Result<(), Refusal>
    requires { base + length entries.now < 2 ^ 32 }
    ensures { (n : ℕ) → behind K.Kind.meaning.width n 0 ≡ length entries.now → result ≡ mapped (λ _. tt) (entries_of K.Kind.meaning default base entries.now n 0 0) }
{
    let mut low = 0;
    for (i, entry) in entries.chunks_exact(2 + K::WIDTH).enumerate() {
        low = check_entry::<K>(default, base + i * entry.len(), entry, low)?;
    }
    Ok(())
}

// Whether a record that begins at `offset` has the place that is due.
fn check_place(offset: usize, place: &[u8], due: usize) -> Result<(), Refusal>
    requires two { length place.now ≡ 2 }
    requires short { offset ≤ most_bytes }
    ensures { result ≡ must (pair_at place.now 0 == due) PlaceNotDue (offset + 2) }
{
    if pair(place, 0) != due {
        return Err(Refusal {
            cause: Cause::PlaceNotDue,
            position: offset + 2,
        });
    }
    Ok(())
}

/// Judges a record at the place that is due: an if's choice, or values of the kind. Answers whether it says the first branch.
/// An inner function: `found` came from `record_at` at the kind's width, in a message of at most 2,048 bytes.
pub fn judge<K: Kind>(found: Record<'_>, due: usize) -> Result<bool, Refusal>
    requires { Formed K.Kind.meaning.width most_bytes (shown found) }
    ensures { result ≡ mapped is_first (judged K.Kind.meaning due (shown found.entry)) }
{
    match found {
        Record::Choice {
            offset,
            place,
            choice,
        } => {
            check_place(offset, place, due)?;
            if choice[0] > 1 {
                return Err(Refusal {
                    cause: Cause::ChoiceRefused,
                    position: offset + 4,
                });
            }
            Ok(choice[0] == 1)
        }
        Record::Exchange {
            offset,
            place,
            default,
            entries,
            ..
        } => {
            check_place(offset, place, due)?;
            let v = value::<K>(default, offset + 4)?;
            check_entries::<K>(v, offset + 5 + K::WIDTH, entries)?;
            Ok(false)
        }
    }
}

/// The record that is due at `at`: whether it says the first branch, and where it ends.
/// An inner function: the message has at most 2,048 bytes.
pub fn due_record<K: Kind>(
    body: Body,
    due: usize,
    message: &[u8],
    at: usize,
) -> Result<(bool, usize), Refusal>
    requires { length message.now ≤ most_bytes }
    ensures is { result ≡ mapped (λ x. (is_first x.0, x.1)) (record_at K.Kind.meaning body due message.now at) }
    ensures ends { IfOk result (λ x. (at < x.1) × (x.1 ≤ length message.now)) }
{
    let record = record_at(body, K::WIDTH, message, at)?;
    let first = judge::<K>(record, due)?;
    Ok((first, at + 2 + pair(message, at)))
}
