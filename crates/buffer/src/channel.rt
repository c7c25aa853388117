// A send channel and its table, possible or not; what a take, a done and an abort leave of it.
ghost use Rattle.std.specs.Prelude.{◌≡◌, true, ◌+◌, ◌*◌, ◌≤◌, ◌<◌, length};
ghost use Rattle.common.specs.Rings.{most_slots, slot_of, with_one_more};
ghost use Rattle.common.specs.Slots.{store};
ghost use Rattle.messages.specs.Records.{message_size, message_bytes};
ghost use Rattle.buffer.specs.Channel.{good_send, send_fits, oldest, with_ring, after_take, after_done, after_abort};

use crate::Send;
use messages::Message;
use settings::channel::Channel;

// The bytes of a slot, and the most slots.
pub const SLOT: usize = messages::records::MESSAGE;

pub const LIMIT: u32 = 1024;

impl Channel for Send {
    ghost good = { good_send };

    ghost fits = { send_fits };

    #[tactic(auto, unfolding(crate::specs::Channel::good_send))]
    fn is_good(self) -> bool {
        settings::txmode::is_tx(self.tx)
            && self.ring.is_good(LIMIT)
            && (!self.held || self.message.is_good())
    }

    fn fits(self, n: usize) -> bool {
        SLOT * (self.ring.capacity as usize) <= n
    }
}

impl Send {
    // The oldest slot, as a part of a table that was judged with the channel.
    #[tactic(auto, using(crate::proofs::Laws::send_ring, crate::proofs::Laws::table_in))]
    pub fn oldest<'a>(self, table: &'a [u8]) -> &'a [u8]
        requires { (good_send self ≡ true) × (send_fits self (length table.now) ≡ true) }
        ensures { result.now ≡ oldest self table.now }
    {
        self.ring.slot::<SLOT>(table, 0)
    }

    // Puts a message in behind the newest: only that slot is written.
    #[tactic(auto, using(crate::proofs::Laws::send_ring, crate::proofs::Laws::table_in))]
    pub fn put(&mut self, m: Message, table: &mut [u8])
        requires { (good_send self.old ≡ true) × (send_fits self.old (length table.old) ≡ true)
            × (self.old.ring.count < self.old.ring.capacity) }
        ensures channel { self.new ≡ with_ring self.old (with_one_more self.old.ring) }
        ensures table { table.new
            ≡ store message_size table.old (slot_of self.old.ring self.old.ring.count) (message_bytes m) }
    {
        let at = self.ring.place::<SLOT>(self.ring.count);
        m.write(&mut table[at..at + SLOT]);
        self.ring.fill_next();
    }

    // The oldest message moves to the register.
    pub fn take(&mut self, m: Message)
        requires { (self.old.ring.capacity ≤ most_slots) × (self.old.ring.first < self.old.ring.capacity)
            × (0 < self.old.ring.count) }
        ensures { self.new ≡ after_take self.old m }
    {
        self.ring.take_oldest();
        self.held = true;
        self.message = m;
    }

    // The register is emptied.
    pub fn finish(&mut self)
        ensures { self.new ≡ after_done self.old }
    {
        self.held = false;
        self.message = Message::default();
    }

    // The register is emptied and the buffer purged.
    pub fn abort(&mut self)
        ensures { self.new ≡ after_abort self.old }
    {
        self.finish();
        self.ring.purge();
    }
}
