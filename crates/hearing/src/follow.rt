ghost use Rattle.std.specs.Prelude.{◌≡◌, ℕ, ◌≤◌, Bool, length};
ghost use Rattle.rules.specs.Rules.{Given, narrowed};
ghost use Rattle.hearing.specs.Hearing.{Gives, Standing, Flags};
ghost use Rattle.hearing.specs.declared.inputs.Inputs.{Inputs};

use crate::cursors::Cursors;
use crate::inputs::Inputs;
use cursor::cursor::{choice_at, seek};
use kind::kind::Kind;
use record::header::HEADER_LENGTH;

/// Cursors at the first record of each tree.
pub fn begin<K: Kind>() -> Cursors
    ensures { (x : Inputs) (g : Given (K.Value)) → Gives K.Kind.meaning x g → Standing K.Kind.meaning x g 0 result }
{
    Cursors {
        senders: [HEADER_LENGTH; 16],
        own: HEADER_LENGTH,
    }
}

// Inputs, cursors, place and flags come apart: a round lends each from another struct.

/// Moves every cursor on to the first record whose place is at least `place`.
pub fn advance<K: Kind>(x: &Inputs<'_>, cursors: &mut Cursors, place: usize)
    ensures { (g : Given (K.Value)) (low : ℕ) → Gives K.Kind.meaning x.now g → Standing K.Kind.meaning x.now g low cursors.old → low ≤ place → Standing K.Kind.meaning x.now g place cursors.new }
{
    // In a copy: a part of an array in a struct with a ghost field is not lent.
    let mut senders = cursors.senders;
    for (j, at) in senders[..x.slots.count].iter_mut().enumerate() {
        *at = seek::<K>(x.tree::<K>(j), *at, place);
    }
    let own = seek::<K>(x.own, cursors.own, place);
    *cursors = Cursors { senders, own };
}

/// Which senders stay aligned in the first branch (or the second) of the if at `place`.
pub fn narrow<K: Kind>(
    x: &Inputs<'_>,
    cursors: &Cursors,
    place: usize,
    first: bool,
    aligned: &[bool; 16],
) -> [bool; 16]
    ensures long { length result ≡ 16 }
    ensures is { (g : Given (K.Value)) (al : ℕ → Bool) (low : ℕ) → Gives K.Kind.meaning x.now g → Flags g al aligned.now → Standing K.Kind.meaning x.now g low cursors.now → low ≤ place → Flags g (narrowed g al place first) result }
{
    let mut still = [false; 16];
    for (j, stays) in still[..x.slots.count].iter_mut().enumerate() {
        *stays = aligned[j]
            && choice_at::<K>(x.tree::<K>(j), cursors.senders[j], place) == Some(first);
    }
    still
}
