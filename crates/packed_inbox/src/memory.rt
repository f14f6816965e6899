ghost use Rattle.std.specs.Prelude.{◌≡◌, ◌+◌, ◌-◌, ◌≤◌, ◌++◌, length, take, drop};
ghost use Rattle.std.proofs.Math.Seq.{paste};
ghost use Rattle.packed_inbox.specs.LentMemory.{Rewrites};

/// Bytes that are lent.
#[derive(Drop)]
pub struct Memory<'a> {
    pub bytes: &'a mut [u8],
}

impl<'a> Memory<'a> {
    /// Moves the bytes from `from` up to `to` so that they begin at `dest`.
    pub fn shift(&mut self, from: usize, to: usize, dest: usize)
        requires { (from ≤ to) × ((to ≤ length self.old.bytes.now) × (dest + (to - from) ≤ length self.old.bytes.now)) }
        ensures { Rewrites self.old self.new (paste self.old.bytes.now dest (drop from self.old.bytes.now) (to - from)) }
    {
        self.bytes.copy_within(from..to, dest);
    }

    /// Writes the item so that it begins at `at`.
    pub fn write(&mut self, at: usize, item: &[u8])
        requires { at + length item.now ≤ length self.old.bytes.now }
        ensures { Rewrites self.old self.new (paste self.old.bytes.now at item.now (length item.now)) }
    {
        let end = at + item.len();
        self.bytes[at..end].copy_from_slice(item);
    }

    /// Copies the `len` bytes that begin at `at` to the buffer's front.
    pub fn read(&self, at: usize, len: usize, buffer: &mut [u8])
        requires { (at + len ≤ length self.now.bytes.now) × (len ≤ length buffer.old) }
        ensures after { buffer.new ≡ take len (drop at self.now.bytes.now) ++ drop len buffer.old }
    {
        let end = at + len;
        buffer[0..len].copy_from_slice(&self.bytes[at..end]);
    }

    pub fn size(&self) -> usize
        ensures { result ≡ length self.now.bytes.now }
    {
        self.bytes.len()
    }
}
