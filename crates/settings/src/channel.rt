// What a receive channel and a send channel have in common: each is judged beside the shared settings, with its table.
ghost use Rattle.std.specs.Prelude.{◌≡◌, ◌&&◌, ℕ, Bool};
ghost use Rattle.common.specs.Choice.{pick};
ghost use Rattle.common.specs.Refusals.{number_in};
ghost use Rattle.settings.specs.Ranges.{good_shared};

use crate::Shared;
use common::refusals::Refusal;

pub trait Channel: Copy {
    ghost good: { Self → Bool };

    ghost fits: { Self → ℕ → Bool };

    // Settings and numbers that such a channel can have.
    fn is_good(self) -> bool
        ensures { result ≡ good self };

    // A table of n bytes is long enough.
    fn fits(self, n: usize) -> bool
        ensures { result ≡ fits self n };
}

impl Shared {
    // Settings and channel are possible, or 2.
    pub fn check<C: Channel>(self, channel: C) -> Result<(), Refusal>
        ensures { number_in result ≡ pick (good_shared self && C.good channel) 0 2 }
    {
        if !self.is_good() || !channel.is_good() {
            return Err(Refusal::NotPossible);
        }
        Ok(())
    }

    // They are, and the table, of n bytes, is long enough, or 2.
    pub fn check_table<C: Channel>(self, channel: C, n: usize) -> Result<(), Refusal>
        ensures { number_in result ≡ pick ((good_shared self && C.good channel) && C.fits channel n) 0 2 }
    {
        self.check(channel)?;
        if !channel.fits(n) {
            return Err(Refusal::NotPossible);
        }
        Ok(())
    }
}
