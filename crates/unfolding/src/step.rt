ghost use Rattle.std.specs.Prelude.{◌≡◌, ◌+◌, ◌^◌, ◌<◌, ◌≤◌, slice_index};
ghost use Rattle.program.specs.Programs.{shown};
ghost use Rattle.unfolding.specs.Unfolding.{expression_at, start, own_places, count_in};
ghost use Rattle.unfolding.specs.Walks.{rows};

use program::expression::Expression;
use program::program::Program;

// The byte at `i`, or 0 past the end.
fn byte(block: &[u8], i: usize) -> u8
    ensures { result ≡ slice_index block.now i }
{
    block.get(i).copied().unwrap_or(0)
}

/// The expression at a position of the program's block, without its parts; none where no expression has the code.
/// For the layers above: a walk keeps its position near the block.
pub fn expression_at(program: &Program, at: usize) -> Option<Expression>
    requires { at + 1 < 2 ^ 64 }
    ensures { result ≡ expression_at (shown program.now).block at }
{
    let block = program.block();
    Expression::of(byte(block, at), byte(block, at + 1), at)
}

/// How many parts an expression of the program has.
pub fn count_parts(program: &Program, e: Expression) -> usize
    ensures is { result ≡ count_in (rows program.now) e }
    ensures few { result ≤ 255 }
{
    match e {
        Expression::Call(n) => program.function(n).parameters as usize,
        _ => e.part_count(0),
    }
}

/// How many places are an expression's own.
pub fn places_own(e: Expression) -> usize
    ensures { result ≡ own_places e }
{
    match e {
        Expression::Exchange | Expression::Share | Expression::If => 1,
        _ => 0,
    }
}
