ghost use Rattle.std.specs.Prelude.{◌≡◌, ◌+◌, ◌≤◌, length};
ghost use Rattle.program.specs.Programs.{shown};
ghost use Rattle.steps.specs.Frames.{Below};
ghost use Rattle.steps.specs.Steps.{Leaf, Leafed};

use crate::frame::Frame;
use hearing::inputs::Inputs;
use hearing::rows::{link_row, reading, value_in};
use kind::kind::Kind;
use program::expression::Expression;
use row_stack::row_stack::RowStack;

/// Lays the row of an expression without parts. An inner function: the row is there, and the rows of the variables lie
/// below it.
pub fn leaf<K: Kind>(
    x: &Inputs<'_>,
    e: Expression,
    frame: &Frame,
    rows: &mut RowStack<'_, K::Value>,
    base: usize,
)
    requires leaf { Leaf e }
    requires width { (shown x.now.program.now).shape.width ≡ K.Kind.meaning.width }
    requires wide { rows.old.width ≡ 2 + x.now.slots.now.count }
    requires below { Below frame.now base rows.old.width }
    requires room { base + rows.old.width ≤ length rows.old.cells.now }
    ensures { Leafed K.Kind.meaning x.now frame.now e rows.old rows.new base }
{
    match e {
        Expression::Literal(from) => rows.fill(base, value_in::<K>(x.program.block(), from)),
        Expression::Variable(n) => match frame.row(n as usize) {
            Some(row) => rows.copy(row, base),
            None => rows.fill(base, K::OWN),
        },
        Expression::Sensor(n) => rows.fill(base, reading::<K>(x.readings, n)),
        Expression::Link => link_row::<K>(x, rows, base),
        _ => unreachable(),
    }
}
