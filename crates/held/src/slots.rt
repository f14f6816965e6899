ghost use Rattle.std.specs.Prelude.{◌≡◌, ◌≤◌, length};

/// Where the items of the senders lie that a round holds: that of sender j from j × 2,064 on, with so many bytes.
#[derive(Clone, Copy)]
pub struct Slots {
    // Two arrays and a count: what is sent is put from the numbers as one slice, and slots are copied, which the kit's
    // vectors of fixed memory are not.
    pub numbers: [u16; 16],
    pub lengths: [usize; 16],
    pub count: usize,
    ghost few: { count ≤ 16 },
    ghost numbered: { length numbers ≡ 16 },
    ghost measured: { length lengths ≡ 16 },
}

mod items;
