ghost use Rattle.std.specs.Prelude.{◌≡◌, ◌≤◌, length, Ok};
ghost use Rattle.buffer.specs.Buffers.{held_bytes};
ghost use Rattle.program.specs.Verdict.{read_block, none_refused};
ghost use Rattle.program.specs.Sizing.{outlined};

use super::Program;
use crate::outline::Outline;
use crate::shape::KindShape;
use buffer::buffer::Buffer;

// The program of a block that was read with this outline.
pub(crate) fn keep(shape: KindShape, outline: Outline, block: Buffer<1024>) -> Program
    requires wide { 1 ≤ shape.width }
    requires narrow { shape.width ≤ 16 }
    requires some { 1 ≤ outline.header.functions }
    requires few { outline.header.functions ≤ 32 }
    requires rows { length outline.functions ≡ 32 }
    requires read { outlined shape.width (read_block none_refused shape (held_bytes block)) ≡ Ok outline }
    ensures block { result.block ≡ block }
    ensures shape { result.shape ≡ shape }
{
    Program {
        block,
        shape,
        outline,
    }
}
