/// Rows of values, in cells that are lent. A row has `width` cells: one for elsewhere, one for the own number and one
/// for each held sender. It is named by the index of its first cell.
// A view of lent cells, and a width: there is no heap, and that a row is there is of its index and the cells together.
#[derive(Drop)]
pub struct RowStack<'a, V> {
    pub cells: &'a mut [V],
    pub width: usize,
}
