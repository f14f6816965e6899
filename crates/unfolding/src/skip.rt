ghost use Rattle.std.specs.Prelude.{◌≡◌, ◌+◌, ◌≤◌, length};
ghost use Rattle.program.specs.Measures.{places, places_all};
ghost use Rattle.program.specs.Programs.{shown};
ghost use Rattle.unfolding.specs.Unfolding.{listed, body_places};
ghost use Rattle.unfolding.specs.Walks.{rows, unfolded_in};

use crate::step::{count_parts, expression_at, places_own};
use program::expression::Expression;
use program::program::Program;

// What is asked is of position, depth and program together, so no type of one of them says it. The two answers are taken
// apart at once.

/// Where the expression at `at` ends, and how many places it has, down to a depth.
#[cycle(skip_skip_called_skip_parts)]
pub fn skip(program: &Program, at: usize, depth: usize) -> (usize, usize)
    requires near { at ≤ length (shown program.now).block + 17 }
    requires few { places (unfolded_in program.now depth at).0 ≤ 4096 }
    ensures end { result.0 ≡ (unfolded_in program.now depth at).1 }
    ensures places { result.1 ≡ places (unfolded_in program.now depth at).0 }
{
    if depth == 0 {
        return (at, 0);
    }
    let Some(e) = expression_at(program, at) else {
        return (at, 0);
    };
    let (end, inside) = skip_parts(
        program,
        count_parts(program, e),
        e.parts_start(at, program.width()),
        depth - 1,
    );
    let body = skip_called(program, e, depth - 1);
    (end, inside + body + places_own(e))
}

// How many places the body has that an expression calls.
#[cycle(skip_skip_called_skip_parts)]
fn skip_called(program: &Program, e: Expression, depth: usize) -> usize
    requires few { body_places (rows program.now) (unfolded_in program.now depth) e ≤ 4096 }
    ensures { result ≡ body_places (rows program.now) (unfolded_in program.now depth) e }
{
    match e {
        Expression::Call(n) => {
            let (_, places) = skip(program, program.function(n).start, depth);
            places
        }
        _ => 0,
    }
}

/// Where `count` expressions in a row end, and how many places they have, down to a depth.
#[cycle(skip_skip_called_skip_parts)]
pub fn skip_parts(program: &Program, count: usize, at: usize, depth: usize) -> (usize, usize)
    requires near { at ≤ length (shown program.now).block + 17 }
    requires few { places_all (listed (unfolded_in program.now depth) count at).0 ≤ 4096 }
    ensures end { result.0 ≡ (listed (unfolded_in program.now depth) count at).1 }
    ensures places { result.1 ≡ places_all (listed (unfolded_in program.now depth) count at).0 }
{
    let mut end = at;
    let mut places = 0;
    // A loop that counts no index: a fold over two values is no plainer.
    for _ in 0..count {
        let (next, inside) = skip(program, end, depth);
        end = next;
        places += inside;
    }
    (end, places)
}
