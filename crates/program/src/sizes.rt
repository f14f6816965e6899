ghost use Rattle.std.specs.Prelude.{◌≡◌, ℕ, ◌+◌};
ghost use Rattle.program.specs.Bounds.{Small, SmallSums, Room, RoomSums, Limits};
ghost use Rattle.program.specs.Sizing.{combined, with_part};

use crate::expression::Expression;

/// The sizes of an unfolded expression.
#[derive(Clone, Copy, Default)]
pub struct Sizes {
    pub size: u32,
    pub depth: u32,
    pub weight: u32,
    pub places: u32,
}

/// The sums over some parts, with the depth of the deepest, and, for an if, the weight of the first and of the heaviest other.
#[derive(Clone, Copy, Default)]
pub struct Sums {
    pub all: Sizes,
    pub first: u32,
    pub others: u32,
}

// The sums with one part more in front.
pub(crate) fn add_part(a: Sizes, s: Sums) -> Sums
    requires part { Room a }
    requires parts { RoomSums s }
    ensures is { result ≡ with_part a s }
    ensures small { (m n : ℕ) → Small a m → SmallSums s n → SmallSums result (m + n) }
{
    Sums {
        all: Sizes {
            size: a.size + s.all.size,
            depth: a.depth.max(s.all.depth),
            weight: a.weight + s.all.weight,
            places: a.places + s.all.places,
        },
        first: a.weight,
        others: s.first.max(s.others),
    }
}

// The sizes of an expression from those of the body that it calls and the sums of its parts.
pub(crate) fn combine(width: u8, e: Expression, body: Sizes, parts: Sums) -> Sizes
    requires body { Room body }
    requires parts { RoomSums parts }
    ensures is { result ≡ combined width e body parts }
    ensures small { (n : ℕ) → Limits body → SmallSums parts n → Small result (n + 1) }
{
    let sums = match e {
        Expression::Call(_) => add_part(body, parts),
        _ => parts,
    };
    let (weight, places) = match e {
        Expression::Exchange | Expression::Share => {
            (
                sums.all.weight + 5 + width as u32 + 17 * (2 + width as u32),
                1,
            )
        }
        Expression::If => (5 + sums.first + sums.others, 1),
        _ => (sums.all.weight, 0),
    };
    Sizes {
        size: sums.all.size + 1,
        depth: sums.all.depth + 1,
        weight,
        places: sums.all.places + places,
    }
}
