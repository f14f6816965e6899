ghost use Rattle.std.specs.Prelude.{◌≡◌, ◌≤◌, length};
ghost use Rattle.inbox.specs.Contents.{most_senders};
ghost use Rattle.packed_inbox.specs.Rows.{span, span_without};

/// What the inbox keeps of a held item beside its bytes. The free places of its table have the default.
#[derive(Clone, Copy, Default)]
pub struct Row {
    pub sender: u16,
    pub age: u8,
    pub len: u16,
}

/// How many bytes the rows' items have together.
pub(crate) fn bytes_of(rows: &[Row]) -> usize
    requires { length rows.now ≤ most_senders }
    ensures { result ≡ span rows.now }
{
    rows.iter().map(|row| row.len as usize).sum()
}

/// How many bytes the items of the other senders have.
// Beside the function above: one over any iterator of rows would be no shorter than the two.
pub(crate) fn bytes_of_others(rows: &[Row], sender: u16) -> usize
    requires { length rows.now ≤ most_senders }
    ensures { result ≡ span_without sender rows.now }
{
    rows.iter()
        .filter(|row| row.sender != sender)
        .map(|row| row.len as usize)
        .sum()
}
