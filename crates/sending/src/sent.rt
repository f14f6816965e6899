ghost use Rattle.std.specs.Prelude.{◌≡◌, ◌+◌, ◌*◌, ◌<◌, ◌≤◌, length, nat_le, count_by};
ghost use Rattle.std.specs.List.{take_while};
ghost use Rattle.program.specs.Measures.{record_weight};
ghost use Rattle.record.specs.Growth.{Puts};
ghost use Rattle.record.specs.Writing.{written_entries};
ghost use Rattle.row_stack.specs.Rows.{row};
ghost use Rattle.sending.specs.Kept.{kept, kept_one, differs};
ghost use Rattle.sending.specs.Sending.{Put};

use kind::kind::Kind;
use record::output::Output;
use record::write::{put_entry, put_head};
use row_stack::row_stack::RowStack;

// How many of the numbers come before the own one, in rising order.
fn count_before(node: u16, numbers: &[u16]) -> usize
    ensures { result ≡ length (take_while (λ n. nat_le n node) numbers.now) }
{
    numbers.iter().take_while(|n| **n <= node).count()
}

// How many of the cells differ from the default.
fn count_other<K: Kind>(cells: &[K::Value], default: K::Value) -> usize
    ensures { result ≡ count_by (differs K.Kind.meaning default) cells.now }
{
    cells.iter().filter(|v| !K::same(**v, default)).count()
}

// Puts the entry of a number, if its value differs from the default.
fn put_other<K: Kind>(output: &mut Output<'_>, number: u16, v: K::Value, default: K::Value)
    requires { output.old.len + (2 + K.Kind.meaning.width) ≤ length output.old.bytes.now }
    ensures { Puts output.old output.new (written_entries K.Kind.meaning (kept_one K.Kind.meaning default number v)) }
{
    if !K::same(v, default) {
        put_entry::<K>(output, number as usize, v);
    }
}

// Puts the entries of the numbers whose cells differ from the default.
fn put_others<K: Kind>(
    output: &mut Output<'_>,
    numbers: &[u16],
    cells: &[K::Value],
    default: K::Value,
)
    requires there { length numbers.now ≤ length cells.now }
    requires room { output.old.len + length numbers.now * (2 + K.Kind.meaning.width) ≤ length output.old.bytes.now }
    ensures { Puts output.old output.new (written_entries K.Kind.meaning (kept K.Kind.meaning default numbers.now cells.now)) }
{
    // By index into the cells: after a `zip` in a loop a proof knows their number alone.
    for (i, n) in numbers.iter().enumerate() {
        put_other::<K>(output, *n, cells[i], default);
    }
}

/// Puts the record of an exchange or share: what it sends is the row at `at`. An inner function: the row is there,
/// `numbers` are the held senders in rising order, and there is room for the largest record.
pub fn put_sent<K: Kind>(
    output: &mut Output<'_>,
    rows: &RowStack<'_, K::Value>,
    at: usize,
    place: usize,
    node: u16,
    numbers: &[u16],
)
    requires wide { rows.now.width ≡ 2 + length numbers.now }
    requires few { length numbers.now ≤ 16 }
    requires there { at + rows.now.width ≤ length rows.now.cells.now }
    requires small { place < 65536 }
    requires room { output.old.len + record_weight K.Kind.meaning.width ≤ length output.old.bytes.now }
    ensures { Put K.Kind.meaning place node numbers.now (row rows.now at) output.old output.new }
{
    let row = rows.row(at);
    let (default, own, cells) = (row[0], row[1], &row[2..]);
    let before = count_before(node, numbers);
    put_head::<K>(output, place, default, count_other::<K>(&row[1..], default));
    put_others::<K>(output, &numbers[..before], cells, default);
    put_other::<K>(output, node, own, default);
    put_others::<K>(output, &numbers[before..], &cells[before..], default);
}
