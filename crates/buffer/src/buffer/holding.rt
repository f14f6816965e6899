ghost use Rattle.std.specs.Prelude.{◌≡◌, ◌≤◌, [], length};
ghost use Rattle.buffer.specs.Buffers.{held_bytes};

use super::Buffer;

impl<const N: usize> Buffer<N> {
    /// No bytes.
    pub fn empty() -> Buffer<N>
        ensures { held_bytes result ≡ [] }
    {
        Buffer {
            bytes: [0; N],
            len: 0,
        }
    }

    /// These bytes. An inner function: the caller knows that they are few enough.
    pub fn of(bytes: &[u8]) -> Buffer<N>
        requires { length bytes.now ≤ N }
        ensures { held_bytes result ≡ bytes.now }
    {
        let mut all = [0; N];
        let len = bytes.len();
        all[..len].copy_from_slice(bytes);
        Buffer { bytes: all, len }
    }

    /// The bytes.
    pub fn as_slice(&self) -> &[u8]
        ensures { result.now ≡ held_bytes self.now }
    {
        &self.bytes[..self.len]
    }
}
