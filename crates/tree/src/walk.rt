ghost use Rattle.std.specs.Prelude.{◌≡◌, ◌+◌, ◌≤◌, length, IfOk, Some};
ghost use Rattle.program.specs.Measures.{places, places_all};
ghost use Rattle.program.specs.Programs.{shown};
ghost use Rattle.refusal.specs.Outcomes.{mapped};
ghost use Rattle.record.specs.Headers.{most_bytes};
ghost use Rattle.unfolding.specs.Unfolding.{listed, body_places, own_places, expression_at};
ghost use Rattle.unfolding.specs.Walks.{rows, unfolded_in};
ghost use Rattle.tree.specs.Walks.{stand, walked, walked_parts, finished};

use kind::kind::Kind;
use program::expression::Expression;
use program::program::Program;
use record::judge::due_record;
use record::record::Body;
use refusal::refused::Refusal;
use unfolding::skip::skip;
use unfolding::step::{count_parts, expression_at};

// A message that is read along a program.
#[derive(Drop)]
pub(crate) struct Walk<'a> {
    pub program: &'a Program,
    pub message: &'a [u8],
    ghost brief: { length message.now ≤ most_bytes },
}

// Where a walk stands: at a byte of the program's block, at a place, and at a position of the message.
// That it is near that block and inside that message stands in the methods: it says how a stand fits a walk.
#[derive(Clone, Copy)]
pub(crate) struct Stand {
    pub at: usize,
    pub place: usize,
    pub position: usize,
}

impl Walk<'_> {
    // Reads the records that are due for the expression at `here`, and moves `here` to where the expression ends, to the place
    // behind it, and to the position behind the records. One stand is handed down, so that no call copies it.
    #[cycle(branch_finish_walk_walk_parts)]
    pub(crate) fn walk<K: Kind>(&self, depth: usize, here: &mut Stand) -> Result<(), Refusal>
        requires near { here.old.at ≤ length (shown self.now.program.now).block + 17 }
        requires few { here.old.place + places (unfolded_in self.now.program.now depth here.old.at).0 ≤ 4096 }
        requires inside { here.old.position ≤ length self.now.message.now }
        ensures is { mapped (λ _. stand here.new) result ≡ walked K.Kind.meaning self.now.message.now (unfolded_in self.now.program.now depth here.old.at) here.old.place here.old.position }
        ensures within { IfOk result (λ _. here.new.position ≤ length self.now.message.now) }
    {
        if depth == 0 {
            return Ok(());
        }
        let Some(e) = expression_at(self.program, here.at) else {
            return Ok(());
        };
        if let Expression::If = e {
            return self.branch::<K>(depth, here);
        }
        here.at = e.parts_start(here.at, self.program.width());
        let count = count_parts(self.program, e);
        self.walk_parts::<K>(count, depth - 1, here)?;
        self.finish::<K>(e, depth - 1, here)
    }

    // The same of `count` expressions in a row. By recursion, as the rules are: a loop would have to say what was read so far
    // in their words.
    #[cycle(branch_finish_walk_walk_parts)]
    fn walk_parts<K: Kind>(
        &self,
        count: usize,
        depth: usize,
        here: &mut Stand,
    ) -> Result<(), Refusal>
        requires near { here.old.at ≤ length (shown self.now.program.now).block + 17 }
        requires few { here.old.place + places_all (listed (unfolded_in self.now.program.now depth) count here.old.at).0 ≤ 4096 }
        requires inside { here.old.position ≤ length self.now.message.now }
        ensures is { mapped (λ _. stand here.new) result ≡ walked_parts K.Kind.meaning self.now.message.now (unfolded_in self.now.program.now depth) count here.old.at here.old.place here.old.position }
        ensures within { IfOk result (λ _. here.new.position ≤ length self.now.message.now) }
    {
        if count == 0 {
            return Ok(());
        }
        self.walk::<K>(depth, here)?;
        self.walk_parts::<K>(count - 1, depth, here)
    }

    // What comes behind the parts of an expression, which end at `here`: its record, or the body that it calls.
    #[cycle(branch_finish_walk_walk_parts)]
    fn finish<K: Kind>(&self, e: Expression, depth: usize, here: &mut Stand) -> Result<(), Refusal>
        requires few { here.old.place + (body_places (rows self.now.program.now) (unfolded_in self.now.program.now depth) e + own_places e) ≤ 4096 }
        requires inside { here.old.position ≤ length self.now.message.now }
        ensures is { mapped (λ _. stand here.new) result ≡ finished K.Kind.meaning self.now.message.now (rows self.now.program.now) (unfolded_in self.now.program.now depth) e here.old.at here.old.place here.old.position }
        ensures within { IfOk result (λ _. here.new.position ≤ length self.now.message.now) }
    {
        match e {
            Expression::Exchange | Expression::Share => {
                let (_, position) = due_record::<K>(
                    Body::Exchange,
                    here.place,
                    self.message,
                    here.position,
                )?;
                here.place += 1;
                here.position = position;
                Ok(())
            }
            Expression::Call(n) => {
                let end = here.at;
                here.at = self.program.function(n).start;
                self.walk::<K>(depth, here)?;
                here.at = end;
                Ok(())
            }
            _ => Ok(()),
        }
    }

    // An if: its condition, its choice, and the branch that was chosen. The places of the other branch are passed over.
    #[cycle(branch_finish_walk_walk_parts)]
    fn branch<K: Kind>(&self, depth: usize, here: &mut Stand) -> Result<(), Refusal>
        requires near { here.old.at ≤ length (shown self.now.program.now).block + 17 }
        requires few { here.old.place + places (unfolded_in self.now.program.now depth here.old.at).0 ≤ 4096 }
        requires inside { here.old.position ≤ length self.now.message.now }
        requires deep { 1 ≤ depth }
        requires step { Some Expression.If ≡ expression_at (shown self.now.program.now).block here.old.at }
        ensures is { mapped (λ _. stand here.new) result ≡ walked K.Kind.meaning self.now.message.now (unfolded_in self.now.program.now depth here.old.at) here.old.place here.old.position }
        ensures within { IfOk result (λ _. here.new.position ≤ length self.now.message.now) }
    {
        here.at += 1;
        self.walk::<K>(depth - 1, here)?;
        let choice = here.place;
        let (yes, position) = due_record::<K>(Body::Choice, choice, self.message, here.position)?;
        here.place = choice + 1;
        here.position = position;
        if yes {
            self.walk::<K>(depth - 1, here)?;
            let (at, second) = skip(self.program, here.at, depth - 1);
            here.at = at;
            here.place += second;
            Ok(())
        } else {
            let (at, first) = skip(self.program, here.at, depth - 1);
            here.at = at;
            here.place += first;
            self.walk::<K>(depth - 1, here)
        }
    }
}
