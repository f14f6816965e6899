ghost use Rattle.std.specs.Prelude.{◌<◌};

/// How many senders there are in a history.
pub const COUNT: usize = 12;

const STEP: usize = 5957;

/// The node number of the sender of this index: from 8 up to 65,535.
pub fn number(index: usize) -> u16
    requires { index < 12 }
{
    (index * STEP + 8) as u16
}

/// The index of the sender of this node number.
pub fn index(number: u16) -> usize
    ensures { result < 12 }
{
    number as usize / STEP
}
