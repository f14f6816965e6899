ghost use Rattle.std.specs.Prelude.{◌≤◌};

mod holding;

/// At most `N` bytes.
// An array and a length: a program is copied, and the kit's vectors of fixed memory are no Copy.
#[derive(Clone, Copy)]
pub struct Buffer<const N: usize> {
    bytes: [u8; N],
    len: usize,
    ghost within: { len ≤ N },
}
