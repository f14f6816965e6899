ghost use Rattle.std.specs.Prelude.{◌≡◌, ℕ, ◌+◌, ◌<◌, ◌≤◌, Bool, List, map, length, take, slice_index_or};
ghost use Rattle.program.specs.Expressions.{Unfolded};
ghost use Rattle.program.specs.Reading.{available, expr};
ghost use Rattle.program.specs.Sizing.{sized, part_sums, row, flagged, Marked};
ghost use Rattle.program.specs.Bounds.{Limits, Ends, PartsEnd};

use crate::expression::{Expression, decode};
use crate::function::Function;
use crate::sizes::{Sizes, Sums, add_part, combine};
use crate::source::Source;
use refusal::cause::Cause;
use refusal::refused::Refusal;

impl<'b> Source<'b> {
    // Whether the kind refuses a literal.
    fn is_refused(self, e: Expression) -> bool
        ensures { result ≡ flagged self.entry.refused.now e }
    {
        match e {
            Expression::Literal(at) => self.refused.get(at).copied().unwrap_or(false),
            _ => false,
        }
    }

    // Whether a number names something: a function before this one, or one of the `scope` variables in sight.
    fn is_available(self, e: Expression, scope: usize) -> bool
        ensures { result ≡ available self.entry.shape self.entry.sensors (length self.entry.table.now) scope e }
    {
        match e {
            Expression::Variable(n) => (n as usize) < scope,
            Expression::Operator(n) | Expression::Fold(n) => n < self.shape.operators,
            Expression::Sensor(n) => n < self.sensors,
            Expression::Call(n) => (n as usize) < self.table.len(),
            _ => true,
        }
    }

    // The function that a call names, or a free row.
    fn called(self, e: Expression) -> Function
        requires known { (n : ℕ) → e ≡ Expression.Call n → n < length self.table.now }
        ensures is { (n : ℕ) (d : Function) → e ≡ Expression.Call n → result ≡ slice_index_or self.entry.table.now n d }
        ensures limits { Limits result.sizes }
    {
        match e {
            Expression::Call(n) => self.table[n as usize],
            _ => Function::default(),
        }
    }

    // The sizes of the body at `at` of the function whose part ends at `end`, and where the body ends.
    pub(crate) fn size_body(
        self,
        end: usize,
        at: usize,
        scope: usize,
    ) -> Result<(Sizes, usize), Refusal>
        requires end { end ≤ length self.bytes.now }
        requires inside { at ≤ end }
        requires scope { scope ≤ at }
        ensures ends { Ends at end result }
        ensures is { (refuses : List ℕ → Bool) (fs : List Unfolded) → Marked refuses self.entry.shape.width self.entry.bytes.now self.entry.refused.now → self.entry.table.now ≡ map (row self.entry.shape.width) fs → result ≡ sized self.entry.shape.width (expr refuses self.entry.shape self.entry.sensors fs (take end self.entry.bytes.now) (length self.entry.bytes.now) at scope) }
    {
        let part = Source {
            shape: self.shape,
            sensors: self.sensors,
            refused: self.refused,
            table: self.table,
            bytes: &self.bytes[..end],
        };
        part.size_expression(at, scope)
    }

    // The sizes of the expression at `at` with its called bodies unfolded, and where it ends.
    #[cycle(size_expression_size_parts)]
    fn size_expression(self, at: usize, scope: usize) -> Result<(Sizes, usize), Refusal>
        requires inside { at ≤ length self.bytes.now }
        requires scope { scope ≤ at }
        ensures ends { Ends at (length self.entry.bytes.now) result }
        ensures is { (refuses : List ℕ → Bool) (fs : List Unfolded) (fuel : ℕ) → Marked refuses self.entry.shape.width self.entry.bytes.now self.entry.refused.now → self.entry.table.now ≡ map (row self.entry.shape.width) fs → length self.entry.bytes.now ≤ fuel + at → result ≡ sized self.entry.shape.width (expr refuses self.entry.shape self.entry.sensors fs self.entry.bytes.now fuel at scope) }
    {
        let (e, next) = decode(&self.bytes[at..], at, self.shape.width)?;
        if self.is_refused(e) {
            return Err(Refusal {
                cause: Cause::LiteralRefused,
                position: at + 1,
            });
        }
        if !self.is_available(e, scope) {
            return Err(Refusal {
                cause: Cause::NotAvailable,
                position: at + 1,
            });
        }
        let f = self.called(e);
        let count = e.part_count(f.parameters);
        let (sums, end) = self.size_parts(count, next, scope, scope + e.new_variables())?;
        Ok((combine(self.shape.width, e, f.sizes, sums), end))
    }

    // The sums over `count` parts from `at` on, and where they end: the first sees `first` variables, the others `others`.
    // By recursion: the sums are put together from the last part on, and a loop would treat the first part apart.
    #[cycle(size_expression_size_parts)]
    fn size_parts(
        self,
        count: usize,
        at: usize,
        first: usize,
        others: usize,
    ) -> Result<(Sums, usize), Refusal>
        requires inside { at ≤ length self.bytes.now }
        requires first { first ≤ at }
        requires others { others ≤ at }
        ensures ends { PartsEnd at (length self.entry.bytes.now) result }
        ensures is { (refuses : List ℕ → Bool) (fs : List Unfolded) (fuel : ℕ) → Marked refuses self.entry.shape.width self.entry.bytes.now self.entry.refused.now → self.entry.table.now ≡ map (row self.entry.shape.width) fs → length self.entry.bytes.now ≤ fuel + at → result ≡ part_sums self.entry.shape.width (expr refuses self.entry.shape self.entry.sensors fs self.entry.bytes.now fuel) count at first others }
    {
        if count == 0 {
            return Ok((Sums::default(), at));
        }
        let (a, next) = self.size_expression(at, first)?;
        let (rest, end) = self.size_parts(count - 1, next, others, others)?;
        Ok((add_part(a, rest), end))
    }
}
