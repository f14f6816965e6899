ghost use Rattle.std.specs.Prelude.{◌+◌, ◌≤◌, length};
ghost use Rattle.row_stack.specs.Rows.{Laid};
ghost use Rattle.steps.specs.Steps.{Computed, computed};

use kind::kind::Kind;
use program::expression::Expression;
use row_stack::row_stack::RowStack;

/// Makes the row of an expression of the rows of its parts, over the first of them. An inner function.
pub fn finish<K: Kind>(
    e: Expression,
    aligned: &[bool],
    rows: &mut RowStack<'_, K::Value>,
    base: usize,
)
    requires parts { Computed e }
    requires flags { rows.old.width ≤ 2 + length aligned.now }
    requires wide { 2 ≤ rows.old.width }
    requires room { base + (rows.old.width + (rows.old.width + rows.old.width)) ≤ length rows.old.cells.now }
    ensures { Laid rows.old rows.new base (computed K.Kind.meaning aligned.now rows.old base e) }
{
    let second = base + rows.width;
    match e {
        Expression::Operator(op) => rows.combine::<K>(op, base, second),
        Expression::Fold(op) => rows.fold::<K>(op, base, second, aligned),
        Expression::Own => {
            let own = rows.cell(base + 1);
            rows.fill(base, own);
        }
        Expression::Choose => rows.choose::<K>(base, second, second + rows.width),
        _ => unreachable(),
    }
}
