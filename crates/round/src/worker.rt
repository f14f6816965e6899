use hearing::cursors::Cursors;
use row_stack::row_stack::RowStack;

/// What works a round: its rows, where it stands in the trees, and the next place.
// The output is no field: a proof knows what it becomes by a reference to it, and not through a struct in a struct.
#[derive(Drop)]
pub(crate) struct Worker<'m, V> {
    pub rows: RowStack<'m, V>,
    pub cursors: Cursors,
    pub place: usize,
}
