ghost use Rattle.std.specs.Prelude.{◌≡◌, ℕ, length};
ghost use Rattle.record.specs.Forms.{Formed, reads_at};
ghost use Rattle.record.specs.Headers.{most_bytes};
ghost use Rattle.record.specs.Records.{behind, bytes_at};
ghost use Rattle.record.specs.Shapes.{shown};

use crate::record::{Record, pair};
use kind::kind::Kind;

// The bytes of the value of the entry that has this number, or else the default's.
fn find_entry<'m, K: Kind>(number: usize, default: &'m [u8], entries: &'m [u8]) -> &'m [u8]
    ensures { (n : ℕ) → behind K.Kind.meaning.width n 0 ≡ length entries.now → result.now ≡ bytes_at K.Kind.meaning.width number default.now entries.now n 0 }
{
    for entry in entries.chunks_exact(2 + K::WIDTH) {
        if pair(entry, 0) == number {
            return &entry[2..];
        }
    }
    default
}

/// The value that a record has at a node number: its entry there, or else its default. None of an if's record.
/// An inner function: `found` came from `record_at` at the kind's width, in a message of at most 2,048 bytes.
pub fn read_at<K: Kind>(found: Record<'_>, number: usize) -> Option<K::Value>
    requires { Formed K.Kind.meaning.width most_bytes (shown found) }
    ensures { result ≡ reads_at K.Kind.meaning number (shown found.entry) }
{
    match found {
        Record::Choice { .. } => None,
        Record::Exchange {
            default,
            entries,
            ..
        } => K::read(find_entry::<K>(number, default, entries)),
    }
}
