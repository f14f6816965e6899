ghost use Rattle.std.specs.Prelude.{◌≡◌};
ghost use Rattle.refusal.specs.Outcomes.{mapped};
ghost use Rattle.tree.specs.Trees.{tree_in, sender_of, RoundTrips};

use crate::walk::{Stand, Walk};
use kind::kind::Kind;
use program::program::Program;
use program::suited::ProgramFor;
use record::header::{HEADER_LENGTH, read_header};
use refusal::cause::Cause;
use refusal::refused::Refusal;
use unfolding::run::run_start;

/// The sender of the tree in a message to the node of this number; or the first refusal.
pub fn read<K: Kind>(program: &Program, node: u16, message: &[u8]) -> Result<u16, Refusal>
    ensures is { result ≡ mapped sender_of (tree_in K.Kind.meaning program.now node message.now) }
    ensures trips { RoundTrips K.Kind.meaning program.now node message.now }
{
    let number = program.number();
    ProgramFor::<K>::of(program)?;
    let sender = read_header(number, node, message)?;
    let (at, depth) = run_start(program);
    let mut here = Stand {
        at,
        place: 0,
        position: HEADER_LENGTH,
    };
    Walk { program, message }.walk::<K>(depth, &mut here)?;
    if here.position != message.len() {
        return Err(Refusal {
            cause: Cause::MessageLeftover,
            position: here.position,
        });
    }
    Ok(sender)
}
