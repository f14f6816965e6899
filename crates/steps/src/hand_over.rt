ghost use Rattle.std.specs.Prelude.{◌≡◌, ◌+◌, ◌<◌, ◌≤◌, length};
ghost use Rattle.program.specs.Measures.{record_weight};
ghost use Rattle.steps.specs.Steps.{Handed};

use hearing::cursors::Cursors;
use hearing::follow::advance;
use hearing::inputs::Inputs;
use kind::kind::Kind;
use record::output::Output;
use row_stack::row_stack::RowStack;
use sending::sent::put_sent;

// What an outcome is handed over with comes apart: a round lends each from another struct.

/// Hands over the outcome of an exchange: puts the record of the row that is sent, moves the cursors past its place, and
/// lays the row that is returned at `base`. `found` are the rows of what is returned and of what is sent. An inner
/// function: the rows are there, and there is room for the record.
pub fn hand_over<K: Kind>(
    x: &Inputs<'_>,
    place: usize,
    base: usize,
    found: (usize, usize),
    rows: &mut RowStack<'_, K::Value>,
    output: &mut Output<'_>,
    cursors: &mut Cursors,
)
    requires small { place < 65535 }
    requires wide { rows.old.width ≡ 2 + x.now.slots.now.count }
    requires base { base + rows.old.width ≤ length rows.old.cells.now }
    requires returned { found.0 + rows.old.width ≤ length rows.old.cells.now }
    requires sent { found.1 + rows.old.width ≤ length rows.old.cells.now }
    requires room { output.old.len + record_weight K.Kind.meaning.width ≤ length output.old.bytes.now }
    ensures { Handed K.Kind.meaning x.now place base found.0 found.1 rows.old rows.new output.old output.new cursors.old cursors.new }
{
    let (returned, sent) = found;
    let numbers = &x.slots.numbers[..x.slots.count];
    put_sent::<K>(output, rows, sent, place, x.node, numbers);
    advance::<K>(x, cursors, place + 1);
    rows.copy(returned, base);
}
