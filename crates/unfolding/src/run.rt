ghost use Rattle.std.specs.Prelude.{◌≡◌, ◌+◌, ◌≤◌, length};
ghost use Rattle.program.specs.Measures.{depth, places};
ghost use Rattle.program.specs.Programs.{shown, run_of};
ghost use Rattle.unfolding.specs.Walks.{unfolded_in};

use program::program::Program;

/// Where in the program's block the run begins, and its depth: there its unfolded expression stands.
pub fn run_start(program: &Program) -> (usize, usize)
    ensures is { (unfolded_in program.now result.1 result.0).0 ≡ run_of program.now }
    ensures near { result.0 ≤ length (shown program.now).block + 17 }
    ensures deep { result.1 ≡ depth (run_of program.now) }
    ensures shallow { result.1 ≤ 32 }
    ensures few { places (run_of program.now) ≤ 4096 }
{
    let last = program.functions() - 1;
    (program.function(last).start, program.depth() as usize)
}
