ghost use Rattle.std.specs.Prelude.{◌≡◌, ◌+◌, ◌/◌, ◌%◌, ◌<◌, ◌≤◌, [], ◌∷◌, length};
ghost use Rattle.record.specs.Fields.{pair_of};
ghost use Rattle.record.specs.Growth.{Puts};

/// An output, of which the first `len` bytes are written.
// The length stands beside the bytes: the caller lends them, and nothing here allocates a list that grows.
#[derive(Drop)]
pub struct Output<'a> {
    pub bytes: &'a mut [u8],
    pub len: usize,
}

impl<'a> Output<'a> {
    /// Puts a byte behind what is written. An inner function: the caller knows that there is room.
    pub fn put(&mut self, v: u8)
        requires { self.old.len < length self.old.bytes.now }
        ensures { Puts self.old self.new (v ∷ []) }
    {
        self.bytes[self.len] = v;
        self.len += 1;
    }

    // No conversion of a type: it goes behind given bytes, and a clause says so.

    /// Puts a number in two bytes. An inner function: the caller knows that there is room, and that they hold the number.
    pub fn pair(&mut self, n: usize)
        requires room { self.old.len + 2 ≤ length self.old.bytes.now }
        requires small { n < 65536 }
        ensures { Puts self.old self.new (pair_of n) }
    {
        let [high, low] = (n as u16).to_be_bytes();
        self.put(high);
        self.put(low);
    }
}
