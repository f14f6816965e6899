ghost use Rattle.std.specs.Prelude.{◌≡◌, ◌≤◌, length, IfOk};
ghost use Rattle.program.specs.Verdict.{header as header_of};

use crate::shape::KindShape;
use refusal::cause::Cause;
use refusal::refused::Refusal;

/// The program's number, how many sensors it reads, and how many functions it has.
#[derive(Clone, Copy)]
pub struct Header {
    pub number: u32,
    pub sensors: u8,
    pub functions: u8,
}

// The header of a block for the kind.
pub(crate) fn read_header(shape: KindShape, block: &[u8]) -> Result<Header, Refusal>
    ensures is { result ≡ header_of shape block.now }
    ensures fits { IfOk result (λ h. (10 ≤ length block.now) × (length block.now ≤ 1024) × (1 ≤ h.functions) × (h.functions ≤ 32)) }
{
    if block.len() > 1024 {
        return Err(Refusal {
            cause: Cause::ProgramLength,
            position: 0,
        });
    }
    let [
        version,
        high,
        low,
        a,
        b,
        c,
        d,
        kind,
        sensors,
        functions,
        rest @ ..,
    ] = block
    else {
        return Err(Refusal {
            cause: Cause::ProgramLength,
            position: 0,
        });
    };
    if *version != 1 {
        return Err(Refusal {
            cause: Cause::ProgramVersion,
            position: 0,
        });
    }
    if u16::from_be_bytes([*high, *low]) as usize != rest.len() + 7 {
        return Err(Refusal {
            cause: Cause::ProgramCount,
            position: 1,
        });
    }
    if *kind != shape.number {
        return Err(Refusal {
            cause: Cause::OtherKind,
            position: 7,
        });
    }
    if *sensors > 8 {
        return Err(Refusal {
            cause: Cause::BlockCounts,
            position: 8,
        });
    }
    if *functions == 0 || *functions > 32 {
        return Err(Refusal {
            cause: Cause::BlockCounts,
            position: 9,
        });
    }
    Ok(Header {
        number: u32::from_be_bytes([*a, *b, *c, *d]),
        sensors: *sensors,
        functions: *functions,
    })
}
