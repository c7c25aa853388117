// A part judged in place, for the raise: its numbers are read where they are tested, and no part is built.
ghost use Rattle.std.specs.Prelude.{◌≡◌, true, ◌&&◌, ◌+◌, ◌≤◌, leb, eqb, length};
ghost use Rattle.common.specs.Choice.{pick};
ghost use Rattle.common.specs.Rings.{good_ring};
ghost use Rattle.messages.specs.Records.{good_message};
ghost use Rattle.settings.specs.Ranges.{good_shared};
ghost use Rattle.settings.specs.TxMode.{good_tx};
ghost use Rattle.queue.specs.Channel.{good_receive};
ghost use Rattle.buffer.specs.Channel.{send_limit};
ghost use Rattle.layout.specs.Parts.{word, shared_in, receive_in, register_in};

use crate::{parts, words};

// What all channels share is in its ranges.
#[tactic(auto, unfolding(settings::specs::Ranges::good_shared))]
pub fn is_shared(s: &[u8], at: usize) -> bool
    requires { at + 24 ≤ length s.now }
    ensures { result ≡ good_shared (shared_in s.now at) }
{
    let mode = words::word(s, at);
    let format = words::word(s, at + 4);
    mode <= 1
        && format <= 2
        && filters::acceptance::mode_takes(mode, format)
        && words::word(s, at + 8) <= 3
        && parts::site_from(s, at + 12).is_good()
}

// The receive channel is possible.
#[tactic(auto, unfolding(queue::specs::Channel::good_receive), using(crate::proofs::Laws::ring_at))]
pub fn is_receive(s: &[u8], at: usize) -> bool
    requires { at + 32 ≤ length s.now }
    ensures { result ≡ good_receive (receive_in s.now at) }
{
    words::word(s, at) <= 1
        && filters::event_mask::is_mask(words::word(s, at + 12))
        && parts::ring_in(s, at + 16).is_good(queue::channel::LIMIT)
}

// The register is empty, or holds a good message.
pub fn is_register(s: &[u8], at: usize) -> bool
    requires { at + 28 ≤ length s.now }
    ensures { result ≡ pick (eqb (word s.now at) 0) true
        (leb (word s.now at) 1 && good_message (register_in s.now (at + 4))) }
{
    let held = words::word(s, at);
    held == 0 || (held <= 1 && parts::register_in(s, at + 4).is_good())
}

// TxMode and the ring of the send channel are possible.
pub fn is_buffer(s: &[u8], at: usize) -> bool
    requires { at + 16 ≤ length s.now }
    ensures { result ≡ (good_tx (word s.now at)
        && good_ring send_limit (record {
          capacity = word s.now (at + 4);
          first = word s.now (at + 8);
          count = word s.now (at + 12);
        })) }
{
    settings::txmode::is_tx(words::word(s, at))
        && parts::ring_in(s, at + 4).is_good(buffer::channel::LIMIT)
}
