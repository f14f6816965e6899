ghost use Rattle.std.specs.Prelude.{◌≡◌, ◌+◌, ◌<◌, ◌≤◌, ℕ, length};
ghost use Rattle.hearing.specs.Hearing.{reading_at, Received, Linked};
ghost use Rattle.hearing.specs.Cells.{RowOf, HeardAt, value_in};

use crate::cursors::Cursors;
use crate::inputs::Inputs;
use cursor::cursor::value_at;
use held::part::part;
use kind::kind::Kind;
use row_stack::row_stack::RowStack;

// What rows have to be is asked at each call: they are a view of lent cells, which no invariant ties to the inputs. What a
// round hears with comes apart, since a round lends each of these from another struct of its own.

// Lays a row: the value elsewhere, that at the own number, and the one that `sender` gives for each slot.
fn lay<V: Copy, F: Fn(usize) -> V>(
    rows: &mut RowStack<'_, V>,
    base: usize,
    elsewhere: V,
    own: V,
    sender: F,
)
    requires wide { 2 ≤ rows.old.width }
    requires room { base + rows.old.width ≤ length rows.old.cells.now }
    requires callable { (j : ℕ) → 2 + j < rows.old.width → F.pre sender j }
    ensures { RowOf (F.post sender) elsewhere own rows.old rows.new base }
{
    let end = base + rows.width;
    rows.cells[base] = elsewhere;
    rows.cells[base + 1] = own;
    for (j, cell) in rows.cells[base + 2..end].iter_mut().enumerate() {
        *cell = sender(j);
    }
}

/// Lays the row of what is received at `place`: what the last own tree and the aligned senders say there, and at every
/// other number the initial value. An inner function: the row is there.
pub fn receive<K: Kind>(
    x: &Inputs<'_>,
    cursors: &Cursors,
    place: usize,
    aligned: &[bool; 16],
    initial: K::Value,
    rows: &mut RowStack<'_, K::Value>,
    base: usize,
)
    requires wide { rows.old.width ≡ 2 + x.now.slots.now.count }
    requires room { base + rows.old.width ≤ length rows.old.cells.now }
    ensures { Received K.Kind.meaning x.now aligned.now place cursors.now initial rows.old rows.new base }
{
    let own = value_at::<K>(x.own, cursors.own, place, x.node).unwrap_or(initial);
    let heard = |j: usize|
        requires { j < x.now.slots.now.count }
        ensures { HeardAt K.Kind.meaning x.entry.now aligned.entry.now place cursors.entry.now initial j result }
    {
        if aligned[j] {
            let said = value_at::<K>(x.tree::<K>(j), cursors.senders[j], place, x.node);
            said.unwrap_or(initial)
        } else {
            initial
        }
    };
    lay(rows, base, initial, own, heard);
}

/// Lays the row of the links. An inner function: the row is there.
pub fn link_row<K: Kind>(x: &Inputs<'_>, rows: &mut RowStack<'_, K::Value>, base: usize)
    requires wide { rows.old.width ≡ 2 + x.now.slots.now.count }
    requires room { base + rows.old.width ≤ length rows.old.cells.now }
    ensures { Linked K.Kind.meaning x.now rows.old rows.new base }
{
    lay(rows, base, K::UNKNOWN, K::OWN, |j| x.link::<K>(j));
}

/// The value whose bytes begin at `at`; OWN where there is none.
pub fn value_in<K: Kind>(bytes: &[u8], at: usize) -> K::Value
    ensures { result ≡ value_in K.Kind.meaning bytes.now at }
{
    K::read(part(bytes, at, K::WIDTH)).unwrap_or(K::OWN)
}

/// The reading of a sensor, as it stands in the readings; OWN where there is none.
pub fn reading<K: Kind>(readings: &[u8], n: u8) -> K::Value
    ensures { result ≡ reading_at K.Kind.meaning readings.now n }
{
    value_in::<K>(readings, n as usize * K::WIDTH)
}
