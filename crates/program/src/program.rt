ghost use Rattle.std.specs.Prelude.{◌≡◌, ◌≤◌, length, Ok};
ghost use Rattle.buffer.specs.Buffers.{held_bytes};
ghost use Rattle.program.specs.Verdict.{read_block, none_refused};
ghost use Rattle.program.specs.Sizing.{outlined};

use crate::outline::Outline;
use crate::shape::KindShape;
use buffer::buffer::Buffer;

/// A checked program: the block that it was read from, the numbers of the kind that it was checked for, and what
/// the check kept of its functions. Only the check makes one.
#[derive(Clone, Copy)]
pub struct Program {
    block: Buffer<1024>,
    shape: KindShape,
    outline: Outline,
    // The bounds of the width and of the functions stand here, and not in the shape and the header: specifications make
    // those of any numbers.
    ghost wide: { 1 ≤ shape.width },
    ghost narrow: { shape.width ≤ 16 },
    ghost some: { 1 ≤ outline.header.functions },
    ghost few: { outline.header.functions ≤ 32 },
    ghost rows: { length outline.functions ≡ 32 },
    ghost checked: { ∥ outlined shape.width (read_block none_refused shape (held_bytes block)) ≡ Ok outline ∥₁ },
}

mod answers;
mod keeping;

pub(crate) use keeping::keep;
