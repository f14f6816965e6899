ghost use Rattle.std.specs.Prelude.{◌<◌};

use crate::call::Call;
use crate::senders;
use inbox::limits::LONGEST_ITEM;

const LONGEST: u32 = LONGEST_ITEM as u32;

/// A linear congruential generator.
#[derive(Drop)]
pub struct Generator {
    pub state: u32,
}

impl Generator {
    // The next number below `n`.
    fn below(&mut self, n: u32) -> u32
        requires { 0 < n }
        ensures { result < n }
    {
        self.state = self
            .state
            .wrapping_mul(1_664_525)
            .wrapping_add(1_013_904_223);
        (self.state >> 8) % n
    }

    fn sender(&mut self) -> u16 {
        senders::number(self.below(senders::COUNT as u32) as usize)
    }

    // The length of an item: mostly short, at times longer than the longest.
    fn len(&mut self) -> usize {
        match self.below(8) {
            0 => (LONGEST - 4 + self.below(10)) as usize,
            1 => self.below(LONGEST) as usize,
            _ => self.below(600) as usize,
        }
    }

    // The length of a buffer: mostly long enough.
    fn room(&mut self) -> usize {
        if self.below(4) == 0 {
            return self.below(LONGEST) as usize;
        }
        (LONGEST + self.below(37)) as usize
    }

    /// The next call.
    pub fn call(&mut self) -> Call {
        match self.below(16) {
            0..=6 => Call::Put {
                sender: self.sender(),
                len: self.len(),
                first: self.below(256) as u8,
            },
            7 | 8 => Call::Remove {
                sender: self.sender(),
            },
            9 => Call::Next { k: self.sender() },
            10 => Call::Next {
                k: self.below(65536) as u16,
            },
            11..=14 => Call::Read {
                sender: self.sender(),
                room: self.room(),
            },
            _ => Call::Passing,
        }
    }
}

/// Calls without end.
impl Iterator for Generator {
    type Item = Call;

    fn next(&mut self) -> Option<Call> {
        Some(self.call())
    }
}
