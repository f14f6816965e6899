ghost use Rattle.std.specs.Prelude.{◌≡◌, ◌+◌, if◌then◌else◌};
ghost use Rattle.refusal.specs.Outcomes.{mapped};
ghost use Rattle.inbox.specs.Contents.{lasts as still_lasts};
ghost use Rattle.inbox.specs.Limits.{pair, limits_checked};

use super::{LONGEST_LIFE, Limits, MOST_SENDERS};
use refusal::cause::Cause;
use refusal::refused::Refusal;

impl Limits {
    /// Checks a sender limit and a life.
    pub fn check(senders: usize, life: usize) -> Result<Limits, Refusal>
        ensures { mapped pair result ≡ limits_checked senders life }
    {
        if !(1..=MOST_SENDERS).contains(&senders) || !(1..=LONGEST_LIFE).contains(&life) {
            return Err(Refusal {
                cause: Cause::LimitRefused,
                position: 0,
            });
        }
        Ok(Limits {
            senders: senders as u8,
            life: life as u8,
        })
    }

    /// How many senders may be held.
    pub fn sender_limit(self) -> usize
        ensures { result ≡ self.senders }
    {
        self.senders as usize
    }

    /// The age at which an item ends.
    pub fn life(self) -> usize
        ensures { result ≡ self.life }
    {
        self.life as usize
    }

    /// Whether an item of this age is still held.
    pub fn lasts(self, age: u8) -> bool
        ensures { result ≡ still_lasts self.life age }
    {
        age < self.life
    }

    /// The age after one more passing, or `None` where an item of this age ends at that.
    pub fn older(self, age: u8) -> Option<u8>
        ensures { result ≡ (if still_lasts self.life (age + 1) then Some (age + 1) else None) }
    {
        let older = age.checked_add(1)?;
        self.lasts(older).then_some(older)
    }
}
