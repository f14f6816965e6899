ghost use Rattle.std.specs.Prelude.{◌≤◌};
ghost use Rattle.inbox.specs.Contents.{most_senders, longest_life};

mod checking;

/// The longest item, in bytes.
pub const LONGEST_ITEM: usize = 2064;

/// The highest sender limit.
pub const MOST_SENDERS: usize = 16;

/// The longest life.
pub const LONGEST_LIFE: usize = 255;

/// A sender limit of 1 to 16 and a life of 1 to 255.
#[derive(Clone, Copy)]
pub struct Limits {
    senders: u8,
    life: u8,
    ghost some: { 1 ≤ senders },
    ghost most: { senders ≤ most_senders },
    ghost lives: { 1 ≤ life },
    ghost short: { life ≤ longest_life },
}
