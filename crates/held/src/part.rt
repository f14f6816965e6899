ghost use Rattle.std.specs.Prelude.{◌≡◌};
ghost use Rattle.record.specs.Fields.{part};

/// The `n` bytes from `at` on, as far as they are there.
pub fn part(bytes: &[u8], at: usize, n: usize) -> &[u8]
    ensures { result.now ≡ part bytes.now at n }
{
    let rest = &bytes[at.min(bytes.len())..];
    &rest[..n.min(rest.len())]
}
