ghost use Rattle.std.specs.Prelude.{◌≡◌, true};
ghost use Rattle.program.specs.Verdict.{suits};
ghost use Rattle.program.specs.Programs.{shown};

use crate::program::Program;
use kind::kind::Kind;
use std::marker::PhantomData;

mod suiting;

/// A checked program that is for the kind.
#[derive(Drop)]
pub struct ProgramFor<'p, K: Kind> {
    program: &'p Program,
    kind: PhantomData<K>,
    ghost suited: { suits K.meaning (shown program.now) ≡ true },
}
