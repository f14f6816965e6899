ghost use Rattle.std.specs.Prelude.{◌≡◌, IfOk};
ghost use Rattle.refusal.specs.declared.cause.Cause.TheVariants.{OtherKind};
ghost use Rattle.refusal.specs.Outcomes.{mapped, must};
ghost use Rattle.program.specs.Verdict.{suits};
ghost use Rattle.program.specs.Programs.{shown};

use super::ProgramFor;
use crate::check::suits;
use crate::program::Program;
use kind::kind::Kind;
use refusal::cause::Cause;
use refusal::refused::Refusal;
use std::marker::PhantomData;

impl<'p, K: Kind> ProgramFor<'p, K> {
    /// The program, if it is for the kind.
    pub fn of(program: &'p Program) -> Result<ProgramFor<'p, K>, Refusal>
        ensures is { mapped (λ _. tt) result ≡ must (suits K.Kind.meaning (shown program.now)) OtherKind 7 }
        ensures same { IfOk result (λ x. x.program.now ≡ program.now) }
    {
        if !suits::<K>(program) {
            return Err(Refusal {
                cause: Cause::OtherKind,
                position: 7,
            });
        }
        Ok(ProgramFor {
            program,
            kind: PhantomData,
        })
    }

    /// The program.
    pub fn program(&self) -> &'p Program
        ensures { result.now ≡ self.now.program.now }
    {
        self.program
    }
}
