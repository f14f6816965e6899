use crate::sizes::Sizes;

/// What is kept of a function: how many parameters, where in the block its expression begins and ends, and its sizes.
/// The default is a free row of the table.
#[derive(Clone, Copy, Default)]
pub struct Function {
    pub parameters: u8,
    pub start: usize,
    pub end: usize,
    pub sizes: Sizes,
}
