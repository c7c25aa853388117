// A device's state: is it possible, and are the tables that it is lent long enough.
ghost use Rattle.std.specs.Prelude.{◌≡◌, ◌&&◌};
ghost use Rattle.queue.specs.Channel.{good_receive, queue_fits};
ghost use Rattle.device.specs.State.{good};

use crate::Device;
use settings::channel::Channel;

impl Device {
    // Settings and state numbers that a device can have. Inlined: a device passed by value is copied through memory.
    #[inline(always)]
    #[tactic(auto, unfolding(crate::specs::State::good))]
    pub fn is_good(self) -> bool
        ensures { result ≡ good self }
    {
        self.shared.is_good() && self.receive.is_good() && self.send.is_good()
    }

    // The state is possible and the event table, of n bytes, long enough.
    pub fn queue_ready(self, n: usize) -> bool
        ensures { result ≡ (good self && queue_fits self.receive n) }
    {
        self.is_good() && self.receive.fits(n)
    }

    // The receive channel is possible and the event table, of n bytes, long enough.
    pub fn receive_ready(self, n: usize) -> bool
        ensures { result ≡ (good_receive self.receive && queue_fits self.receive n) }
    {
        self.receive.is_good() && self.receive.fits(n)
    }
}
