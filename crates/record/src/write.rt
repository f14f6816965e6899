ghost use Rattle.std.specs.Prelude.{◌≡◌, ◌+◌, ◌-◌, ◌<◌, ◌≤◌, List, ◌++◌, length, take, drop};
ghost use Rattle.record.specs.Fields.{part};
ghost use Rattle.record.specs.Growth.{Puts};
ghost use Rattle.record.specs.Headers.{header_length, most_bytes, written_header};
ghost use Rattle.record.specs.Shapes.{most_entries};
ghost use Rattle.record.specs.Trees.{Rec, choice};
ghost use Rattle.record.specs.Writing.{written_entry, written_head, written_record, written_records, written_tree};

use crate::header::{COUNT_OFFSET, HEADER_LENGTH, VERSION};
use crate::output::Output;
use kind::kind::Kind;
use kind::output::write_at;

// A place is an index in a round and two bytes in a record, so its bound is asked where it is written.

/// Puts a value behind what is written. An inner function: the caller knows that there is room, as for those below.
pub fn put_value<K: Kind>(output: &mut Output<'_>, v: K::Value)
    requires { output.old.len + K.Kind.meaning.width ≤ length output.old.bytes.now }
    ensures { Puts output.old output.new (K.Kind.meaning.written v) }
{
    let start = output.len;
    output.len = write_at::<K>(v, output.bytes, start);
}

/// Puts the record of an if. An inner function.
pub fn put_choice<K: Kind>(output: &mut Output<'_>, place: usize, first: bool)
    requires room { output.old.len + 5 ≤ length output.old.bytes.now }
    requires small { place < 65536 }
    ensures { Puts output.old output.new (written_record K.Kind.meaning (choice place first)) }
{
    output.pair(3);
    output.pair(place);
    output.put(first as u8);
}

/// Puts the front of an exchange's record, before its `count` entries. An inner function.
pub fn put_head<K: Kind>(output: &mut Output<'_>, place: usize, default: K::Value, count: usize)
    requires room { output.old.len + (5 + K.Kind.meaning.width) ≤ length output.old.bytes.now }
    requires small { place < 65536 }
    requires few { count ≤ most_entries }
    ensures { Puts output.old output.new (written_head K.Kind.meaning place default count) }
{
    let width = K::WIDTH;
    output.pair(3 + width + count * (2 + width));
    output.pair(place);
    put_value::<K>(output, default);
    output.put(count as u8);
}

/// Puts one entry. An inner function.
pub fn put_entry<K: Kind>(output: &mut Output<'_>, number: usize, v: K::Value)
    requires room { output.old.len + (2 + K.Kind.meaning.width) ≤ length output.old.bytes.now }
    requires small { number < 65536 }
    ensures { Puts output.old output.new (written_entry K.Kind.meaning number v) }
{
    output.pair(number);
    put_value::<K>(output, v);
}

/// Writes the header over the front of an output whose records stand behind it, up to `len`: all else stays.
/// The first `len` bytes are then the tree. An inner function: they have room for the header and fit a message.
pub fn put_header<K: Kind>(output: &mut Output<'_>, program: u32, sender: u16)
    requires long { header_length ≤ output.old.len }
    requires short { output.old.len ≤ most_bytes }
    requires room { output.old.len ≤ length output.old.bytes.now }
    ensures lender { output.new.bytes.ghost_name ≡ output.old.bytes.ghost_name }
    ensures same { output.new.len ≡ output.old.len }
    ensures bytes { output.new.bytes.now ≡ written_header program sender (output.old.len - header_length) ++ drop header_length output.old.bytes.now }
    ensures tree { (rs : List (Rec (K.Value))) → part output.old.bytes.now header_length (output.old.len - header_length) ≡ written_records K.Kind.meaning rs → take output.new.len output.new.bytes.now ≡ written_tree K.Kind.meaning program (record { sender = sender; records = rs }) }
{
    write_header(output.bytes, output.len - HEADER_LENGTH, program, sender);
}

// Writes the header of a tree whose records have `len` bytes over the front of the bytes.
fn write_header(bytes: &mut [u8], len: usize, program: u32, sender: u16)
    requires room { header_length ≤ length bytes.old }
    requires short { len ≤ most_bytes }
    ensures { bytes.new ≡ written_header program sender len ++ drop header_length bytes.old }
{
    let count = HEADER_LENGTH + len - (COUNT_OFFSET + 2);
    let [high, low] = (count as u16).to_be_bytes();
    let [a, b, c, d] = program.to_be_bytes();
    let [x, y] = sender.to_be_bytes();
    bytes[..HEADER_LENGTH].copy_from_slice(&[VERSION, high, low, a, b, c, d, x, y]);
}
