ghost use Rattle.std.specs.Prelude.{◌≡◌, ◌≤◌, length};

/// Where the rows of the variables in sight begin.
// An array and a count: a frame is copied at each binding, the kit's vectors of fixed memory are no Copy,
// and a `Buffer` holds bytes.
#[derive(Clone, Copy)]
pub struct Frame {
    rows: [u16; 40],
    count: usize,
    ghost few: { count ≤ 40 },
    ghost all: { length rows ≡ 40 },
}

mod variables;
