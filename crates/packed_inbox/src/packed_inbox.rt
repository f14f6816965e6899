ghost use Rattle.std.specs.Prelude.{◌≤◌, length};
ghost use Rattle.inbox.specs.Contents.{Lawful};
ghost use Rattle.packed_inbox.specs.Rows.{cut, span};

use crate::memory::Memory;
use crate::row::Row;
use arrayvec::ArrayVec;
use inbox::limits::{Limits, MOST_SENDERS};

pub mod calls;
mod keeping;

/// An inbox whose items lie end to end, by rising sender, in lent memory. Its byte limit is the memory's length.
#[derive(Drop)]
pub struct PackedInbox<'a> {
    memory: Memory<'a>,
    limits: Limits,
    table: ArrayVec<Row, MOST_SENDERS>,
    ghost spans: { span table.items ≤ length memory.bytes.now },
    ghost lawful: { ∥ Lawful (record { sender_limit = limits.senders; byte_limit = length memory.bytes.now; life = limits.life; items = cut table.items memory.bytes.now }) ∥₁ },
}
