ghost use Rattle.std.specs.Prelude.{◌≤◌, length};
ghost use Rattle.program.specs.Bounds.{Limited};

use crate::function::Function;
use crate::shape::KindShape;

// What functions and their expressions are read against: the numbers of the kind, how many sensors there are, by offset
// whether the kind refuses a literal there, the functions before this one, and the bytes of the block, for an
// expression those up to the end of its function's part.
// A position is a parameter of each method: it is another one at each call. What flags and table stand for is said for any
// test and any functions, so at each method.
#[derive(Clone, Copy)]
pub(crate) struct Source<'b> {
    pub(crate) shape: KindShape,
    pub(crate) sensors: u8,
    pub(crate) refused: &'b [bool],
    pub(crate) table: &'b [Function],
    pub(crate) bytes: &'b [u8],
    ghost short: { length bytes.now ≤ 1024 },
    ghost limited: { Limited table.now },
}
