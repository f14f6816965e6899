ghost use Rattle.std.specs.Prelude.{◌≡◌, ◌+◌, ◌<◌, ◌≤◌, length, replicate, slice_index_or, slice_range, take, drop};
ghost use Rattle.std.proofs.Math.Seq.{paste};
ghost use Rattle.std.specs.List.{filter, fold, zip};
ghost use Rattle.row_stack.specs.Rows.{row, Laid, applied, chosen, gathered, sender_cells, own_cell};

use crate::row_stack::RowStack;
use kind::kind::Kind;

// Rows are named by their first cells, and what is asked of those is asked at each call: a stack is a view of lent cells.

// Makes all cells one value. Not by the library's `fill`: it asks that a clone cannot fail, which `Copy` does not say.
fn fill_cells<V: Copy>(cells: &mut [V], v: V)
    ensures { cells.new ≡ replicate (length cells.old) v }
{
    for cell in cells.iter_mut() {
        *cell = v;
    }
}

// Two functions where two cells and where three go together: a fold over a list of fellows would need such a list.

// Makes of each cell what an operator makes of it and of its fellow.
fn combine_cells<K: Kind>(op: u8, cells: &mut [K::Value], others: &[K::Value])
    requires { length others.now ≡ length cells.old }
    ensures { cells.new ≡ applied (K.Kind.meaning.apply op) cells.old others.now }
{
    // By index into the others: after a `zip` in a loop a proof knows their lengths alone.
    for (i, cell) in cells.iter_mut().enumerate() {
        *cell = K::apply(op, *cell, others[i]);
    }
}

// The same of cells that lie in one slice.
fn combine_rows<K: Kind>(op: u8, cells: &mut [K::Value], at: usize, second: usize, width: usize)
    requires behind { at + width ≤ second }
    requires there { second + width ≤ length cells.old }
    ensures { cells.new ≡ paste cells.old at (applied (K.Kind.meaning.apply op) (take width (drop at cells.old)) (take width (drop second cells.old))) width }
{
    let (front, back) = cells.split_at_mut(second);
    combine_cells::<K>(op, &mut front[at..at + width], &back[..width]);
}

// Makes of each cell one of its two fellows, by its truth.
fn choose_cells<K: Kind>(cells: &mut [K::Value], yes: &[K::Value], no: &[K::Value])
    requires yes { length yes.now ≡ length cells.old }
    requires no { length no.now ≡ length cells.old }
    ensures { cells.new ≡ chosen K.Kind.meaning.truth cells.old yes.now no.now }
{
    // By index, as above.
    for (i, cell) in cells.iter_mut().enumerate() {
        *cell = if K::truth(*cell) { yes[i] } else { no[i] };
    }
}

// The same of cells that lie in one slice.
fn choose_rows<K: Kind>(cells: &mut [K::Value], at: usize, yes: usize, no: usize, width: usize)
    requires first { at + width ≤ yes }
    requires second { at + width ≤ no }
    requires yes { yes + width ≤ length cells.old }
    requires no { no + width ≤ length cells.old }
    ensures { cells.new ≡ paste cells.old at (chosen K.Kind.meaning.truth (take width (drop at cells.old)) (take width (drop yes cells.old)) (take width (drop no cells.old))) width }
{
    let end = at + width;
    let (front, back) = cells.split_at_mut(end);
    let (yes, no) = (yes - end, no - end);
    choose_cells::<K>(
        &mut front[at..end],
        &back[yes..yes + width],
        &back[no..no + width],
    );
}

impl<'a, V: Copy> RowStack<'a, V> {
    /// A cell. An inner function, as all below: the caller knows that the cells are there.
    pub fn cell(&self, i: usize) -> V
        requires { i < length self.now.cells.now }
        ensures { (d : V) → result ≡ slice_index_or self.now.cells.now i d }
    {
        self.cells[i]
    }

    /// The cells of the row at `at`.
    pub fn row(&self, at: usize) -> &[V]
        requires { at + self.now.width ≤ length self.now.cells.now }
        ensures { result.now ≡ row self.now at }
    {
        &self.cells[at..at + self.width]
    }

    /// Lays a row that has one value in all cells.
    pub fn fill(&mut self, at: usize, v: V)
        requires { at + self.old.width ≤ length self.old.cells.now }
        ensures { Laid self.old self.new at (replicate self.old.width v) }
    {
        let end = at + self.width;
        fill_cells(&mut self.cells[at..end], v);
    }

    /// Lays a copy of the row at `from`.
    pub fn copy(&mut self, from: usize, at: usize)
        requires room { at + self.old.width ≤ length self.old.cells.now }
        requires there { from + self.old.width ≤ length self.old.cells.now }
        ensures { Laid self.old self.new at (row self.old from) }
    {
        let end = from + self.width;
        self.cells.copy_within(from..end, at);
    }

    /// Lays over the row at `at` what an operator makes of it and of the row at `second`, which lies behind it.
    pub fn combine<K: Kind<Value = V>>(&mut self, op: u8, at: usize, second: usize)
        requires behind { at + self.old.width ≤ second }
        requires there { second + self.old.width ≤ length self.old.cells.now }
        ensures { Laid self.old self.new at (applied (K.Kind.meaning.apply op) (row self.old at) (row self.old second)) }
    {
        combine_rows::<K>(op, self.cells, at, second, self.width);
    }

    /// Lays over the row at `at`, cell by cell, that of the row at `yes` or at `no`, by its truth. Both lie behind it.
    pub fn choose<K: Kind<Value = V>>(&mut self, at: usize, yes: usize, no: usize)
        requires first { at + self.old.width ≤ yes }
        requires second { at + self.old.width ≤ no }
        requires yes { yes + self.old.width ≤ length self.old.cells.now }
        requires no { no + self.old.width ≤ length self.old.cells.now }
        ensures { Laid self.old self.new at (chosen K.Kind.meaning.truth (row self.old at) (row self.old yes) (row self.old no)) }
    {
        choose_rows::<K>(self.cells, at, yes, no, self.width);
    }

    // The own value of the row at `second`, and then what an operator makes of it and of each sender's cell in the row at
    // `at` whose flag is set, one after the other.
    fn gather<K: Kind<Value = V>>(&self, op: u8, at: usize, second: usize, flags: &[bool]) -> V
        requires wide { 2 ≤ self.now.width }
        requires room { at + self.now.width ≤ length self.now.cells.now }
        requires there { second + self.now.width ≤ length self.now.cells.now }
        ensures { result ≡ fold (λ w p. K.Kind.meaning.apply op w p.0) (own_cell K.Kind.meaning self.now second) (filter (λ p. p.1) (zip (slice_range self.now.cells.now (at + 2) (at + self.now.width)) flags.now)) }
    {
        let own = self.cell(second + 1);
        self.cells[at + 2..at + self.width]
            .iter()
            .zip(flags)
            .filter(|(_, flag)| **flag)
            .fold(own, |v, (cell, _)| K::apply(op, v, *cell))
    }

    /// Lays over the row at `at` one value in all cells. It begins as that of the own number in the row at `second`, and
    /// an operator takes it and the cell in the row at `at` of each aligned sender, one after the other.
    pub fn fold<K: Kind<Value = V>>(&mut self, op: u8, at: usize, second: usize, aligned: &[bool])
        requires wide { 2 ≤ self.old.width }
        requires flags { self.old.width ≤ 2 + length aligned.now }
        requires room { at + self.old.width ≤ length self.old.cells.now }
        requires there { second + self.old.width ≤ length self.old.cells.now }
        ensures { Laid self.old self.new at (replicate self.old.width (gathered (K.Kind.meaning.apply op) aligned.now (sender_cells self.old at) (own_cell K.Kind.meaning self.old second))) }
    {
        let v = self.gather::<K>(op, at, second, aligned);
        self.fill(at, v);
    }
}
