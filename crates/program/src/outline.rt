use crate::function::Function;
use crate::header::Header;

/// What the check keeps of a block: its header, and a row for each function; the other rows are free.
// A table of fixed size, whose rows the header counts: a program is copied, and the kit's vectors of fixed memory are not.
#[derive(Clone, Copy)]
pub struct Outline {
    pub header: Header,
    pub functions: [Function; 32],
}
