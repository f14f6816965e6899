ghost use Rattle.std.specs.Prelude.{◌≡◌, ℕ, ◌+◌, ◌<◌, ◌≤◌, Bool, List, [], map, length, IfOk, Ok};
ghost use Rattle.buffer.specs.Buffers.{held_bytes};
ghost use Rattle.refusal.specs.Outcomes.{after, must};
ghost use Rattle.refusal.specs.declared.cause.Cause.TheVariants.{FunctionCount};
ghost use Rattle.program.specs.Expressions.{Unfolded};
ghost use Rattle.program.specs.Verdict.{part_fits, part_end, function, functions};
ghost use Rattle.program.specs.Sizing.{Marked, row, rowed, tabled};
ghost use Rattle.program.specs.Bounds.{Limits};

use crate::function::Function;
use crate::header::Header;
use crate::shape::KindShape;
use crate::source::Source;
use buffer::buffer::Buffer;
use refusal::cause::Cause;
use refusal::refused::Refusal;

// Where the part ends whose pair stands at `at`.
fn end_of_part(block: &[u8], at: usize) -> Result<usize, Refusal>
    requires inside { at ≤ length block.now }
    ensures is { result ≡ after (must (part_fits block.now at) FunctionCount at) (λ _. Ok (part_end block.now at)) }
    ensures fits { IfOk result (λ e. (at + 4 ≤ e) × (e ≤ length block.now)) }
{
    let refusal = Refusal {
        cause: Cause::FunctionCount,
        position: at,
    };
    let Some((pair, part)) = block[at..].split_first_chunk() else {
        return Err(refusal);
    };
    let count = u16::from_be_bytes(*pair) as usize;
    if count < 2 || count > part.len() {
        return Err(refusal);
    }
    Ok(at + 2 + count)
}

impl<'b> Source<'b> {
    // The function whose pair stands at `at` of the block, behind those of the table.
    fn check_function(self, at: usize, last: bool) -> Result<Function, Refusal>
        requires inside { at ≤ length self.bytes.now }
        requires behind { 10 ≤ at }
        ensures ends { IfOk result (λ f. (at < f.end) × (f.end ≤ length self.entry.bytes.now) × Limits f.sizes) }
        ensures is { (refuses : List ℕ → Bool) (fs : List Unfolded) → Marked refuses self.entry.shape.width self.entry.bytes.now self.entry.refused.now → self.entry.table.now ≡ map (row self.entry.shape.width) fs → result ≡ rowed self.entry.shape.width (function refuses self.entry.shape self.entry.sensors self.entry.bytes.now fs last at) }
    {
        let end = end_of_part(self.bytes, at)?;
        let parameters = self.bytes[at + 2];
        if parameters > 8 || last && parameters != 0 {
            return Err(Refusal {
                cause: Cause::Parameters,
                position: at + 2,
            });
        }
        let (sizes, body_end) = self.size_body(end, at + 3, parameters as usize)?;
        if body_end != end {
            return Err(Refusal {
                cause: Cause::ProgramLeftover,
                position: body_end,
            });
        }
        if last && end != self.bytes.len() {
            return Err(Refusal {
                cause: Cause::ProgramLeftover,
                position: end,
            });
        }
        if sizes.size > 4096 || sizes.depth > 32 || sizes.weight > 2039 {
            return Err(Refusal {
                cause: Cause::FunctionTooLarge,
                position: at,
            });
        }
        Ok(Function {
            parameters,
            start: at + 3,
            end,
            sizes,
        })
    }
}

// The rows of the block's functions, one after the other.
pub(crate) fn check_functions(
    shape: KindShape,
    refused: &[bool],
    header: Header,
    block: &Buffer<1024>,
) -> Result<[Function; 32], Refusal>
    requires long { 10 ≤ length (held_bytes block.now) }
    requires few { header.functions ≤ 32 }
    ensures long { IfOk result (λ t. length t ≡ 32) }
    ensures is { (refuses : List ℕ → Bool) → Marked refuses shape.width (held_bytes block.now) refused.now → result ≡ tabled shape.width (functions refuses shape header.sensors (held_bytes block.now) header.functions 10 []) }
{
    let bytes = block.as_slice();
    let count = header.functions as usize;
    let mut table = [Function::default(); 32];
    let mut at = 10;
    // By index: a function is read against the rows before its own.
    for i in 0..count {
        let source = Source {
            shape,
            sensors: header.sensors,
            refused,
            table: &table[..i],
            bytes,
        };
        let f = source.check_function(at, i + 1 == count)?;
        table[i] = f;
        at = f.end;
    }
    Ok(table)
}
