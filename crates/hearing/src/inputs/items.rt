ghost use Rattle.std.specs.Prelude.{◌≡◌, ◌<◌};
ghost use Rattle.hearing.specs.Hearing.{tree_of};
ghost use Rattle.hearing.specs.Cells.{link_of};

use super::Inputs;
use kind::kind::Kind;

// A slot is named by its index below the count, as an element of a slice is.
impl Inputs<'_> {
    // The tree of the sender in slot `j`.
    pub(crate) fn tree<K: Kind>(&self, j: usize) -> &[u8]
        requires { j < self.now.slots.now.count }
        ensures { result.now ≡ tree_of K.Kind.meaning self.now j }
    {
        self.slots.tree(K::WIDTH, self.bytes, j)
    }

    // The link to that sender; UNKNOWN where its bytes are none.
    pub(crate) fn link<K: Kind>(&self, j: usize) -> K::Value
        requires { j < self.now.slots.now.count }
        ensures { result ≡ link_of K.Kind.meaning self.now j }
    {
        K::read(self.slots.link_bytes(K::WIDTH, self.bytes, j)).unwrap_or(K::UNKNOWN)
    }
}
