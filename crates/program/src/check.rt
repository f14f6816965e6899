ghost use Rattle.std.specs.Prelude.{◌≡◌, ◌≤◌, true, IfOk};
ghost use Rattle.buffer.specs.Buffers.{held_bytes};
ghost use Rattle.refusal.specs.Outcomes.{mapped, InLayer};
ghost use Rattle.program.specs.Verdict.{verdict, shape_of, refused_by, suits as suits_kind};
ghost use Rattle.program.specs.Programs.{shown};
ghost use Rattle.program.specs.Sizing.{Marked};

use crate::block::check_functions;
use crate::header::read_header;
use crate::outline::Outline;
use crate::program::{Program, keep};
use crate::shape::KindShape;
use buffer::buffer::Buffer;
use kind::kind::Kind;
use refusal::refused::Refusal;

// The numbers of a kind.
fn shape<K: Kind>() -> KindShape
    ensures is { result ≡ shape_of K.Kind.meaning }
    ensures wide { 1 ≤ result.width }
    ensures narrow { result.width ≤ 16 }
{
    KindShape {
        number: K::NUMBER,
        width: K::WIDTH as u8,
        operators: K::OPERATORS,
    }
}

// By offset, whether the kind refuses a literal there. Beside the bytes, and for all of them: sizing names no kind.
fn refused_literals<K: Kind>(width: u8, block: &Buffer<1024>) -> [bool; 1024]
    requires some { 1 ≤ width }
    ensures { Marked (refused_by K.Kind.meaning) width (held_bytes block.now) result }
{
    let bytes = block.as_slice();
    let mut flags = [false; 1024];
    for (at, flag) in flags[..bytes.len()].iter_mut().enumerate() {
        if let Some(literal) = bytes.get(at..at + width as usize) {
            *flag = K::read(literal).is_none();
        }
    }
    flags
}

/// The program in the bytes, checked for the kind; or the first refusal.
pub fn check<K: Kind>(bytes: &[u8]) -> Result<Program, Refusal>
    ensures is { mapped shown result ≡ verdict K.Kind.meaning bytes.now }
    ensures layer { InLayer 1 result }
    ensures suits { IfOk result (λ p. suits_kind K.Kind.meaning (shown p) ≡ true) }
{
    let shape = shape::<K>();
    let header = read_header(shape, bytes)?;
    let block = Buffer::of(bytes);
    let refused = refused_literals::<K>(shape.width, &block);
    let functions = check_functions(shape, &refused, header, &block)?;
    Ok(keep(shape, Outline { header, functions }, block))
}

/// Whether a checked program is for the kind. It is, if the check of this kind gave it.
pub fn suits<K: Kind>(program: &Program) -> bool
    ensures { result ≡ suits_kind K.Kind.meaning (shown program.now) }
{
    program.kind() == K::NUMBER
        && program.width() == K::WIDTH
        && program.operators() == K::OPERATORS
}
