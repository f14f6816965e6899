ghost use Rattle.std.specs.Prelude.{◌≡◌, ◌+◌, ◌<◌, ◌≤◌, length};
ghost use Rattle.steps.specs.Steps.{Parted};

use hearing::cursors::Cursors;
use hearing::follow::{advance, narrow};
use hearing::inputs::Inputs;
use kind::kind::Kind;
use record::output::Output;
use record::write::put_choice;

// What ways are parted with comes apart: a round lends each from another struct.

/// Parts ways at an if: puts its choice, moves the cursors on to its place, and tells which senders stay aligned.
/// An inner function: there is room for the record.
pub fn part_ways<K: Kind>(
    x: &Inputs<'_>,
    place: usize,
    first: bool,
    aligned: &[bool; 16],
    output: &mut Output<'_>,
    cursors: &mut Cursors,
) -> [bool; 16]
    requires room { output.old.len + 5 ≤ length output.old.bytes.now }
    requires small { place < 65536 }
    ensures { Parted K.Kind.meaning x.now aligned.now result place first output.old output.new cursors.old cursors.new }
{
    put_choice::<K>(output, place, first);
    advance::<K>(x, cursors, place);
    narrow::<K>(x, cursors, place, first, aligned)
}
