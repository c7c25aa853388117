// The parts of a state, each read and written from `at` on.
ghost use Rattle.std.specs.Prelude.{◌≡◌, ◌++◌, ◌+◌, ◌≤◌, length};
ghost use Rattle.std.proofs.lemmas.List.Edits.{sets};
ghost use Rattle.std.proofs.Math.Seq.{slice};
ghost use Rattle.layout.specs.Parts.{shared_numbers, receive_numbers, send_numbers, register_bytes, word_bytes};
ghost use Rattle.layout.specs.Parts.{site_from, shared_in, ring_in, receive_in, register_in, send_in};

use crate::words;
use buffer::Send;
use common::Ring;
use filters::Filter;
use ids::Header;
use messages::Message;
use queue::Receive;
use settings::Shared;
use sites::Site;

// The site: its offset, and its second in two halves.
pub fn site_from(s: &[u8], at: usize) -> Site
    requires { at + 12 ≤ length s.now }
    ensures { result ≡ site_from s.now at }
{
    Site {
        offset: words::word(s, at),
        second: settings::given::joined(words::word(s, at + 4), words::word(s, at + 8)),
    }
}

pub fn shared_in(s: &[u8], at: usize) -> Shared
    requires { at + 24 ≤ length s.now }
    ensures { result ≡ shared_in s.now at }
{
    Shared {
        mode: words::word(s, at),
        format: words::word(s, at + 4),
        align: words::word(s, at + 8),
        site: site_from(s, at + 12),
    }
}

// The numbers of a ring.
pub fn ring_in(s: &[u8], at: usize) -> Ring
    requires { at + 12 ≤ length s.now }
    ensures { result ≡ ring_in s.now at }
{
    Ring {
        capacity: words::word(s, at),
        first: words::word(s, at + 4),
        count: words::word(s, at + 8),
    }
}

#[tactic(auto, using(crate::proofs::Laws::ring_at))]
pub fn receive_in(s: &[u8], at: usize) -> Receive
    requires { at + 32 ≤ length s.now }
    ensures { result ≡ receive_in s.now at }
{
    let filter = Filter {
        active: words::word(s, at),
        code: words::word(s, at + 4),
        mask: words::word(s, at + 8),
    };
    Receive {
        filter,
        events: words::word(s, at + 12),
        ring: ring_in(s, at + 16),
        pending: words::word(s, at + 28),
    }
}

// The register's message.
pub fn register_in(s: &[u8], at: usize) -> Message
    requires { at + 24 ≤ length s.now }
    ensures { result ≡ register_in s.now at }
{
    let header = Header {
        id: words::word(s, at),
        format: words::word(s, at + 4),
        rtr: words::word(s, at + 8),
        dlc: words::word(s, at + 12),
    };
    let bytes = data_in(s, at + 16);
    Message { header, bytes }
}

// Eight data bytes.
fn data_in(s: &[u8], at: usize) -> [u8; 8]
    requires { at + 8 ≤ length s.now }
    ensures { result ≡ slice at (at + 8) s.now }
{
    let mut bytes = [0; 8];
    bytes.copy_from_slice(&s[at..at + 8]);
    bytes
}

pub fn send_in(s: &[u8], at: usize) -> Send
    requires { at + 44 ≤ length s.now }
    ensures { result ≡ send_in s.now at }
{
    Send {
        tx: words::word(s, at),
        ring: ring_in(s, at + 4),
        held: words::word(s, at + 16) == 1,
        message: register_in(s, at + 20),
    }
}

#[tactic(auto, using(crate::proofs::Laws::shared_written))]
pub fn write_shared(s: &mut [u8], at: usize, h: Shared)
    requires { at + 24 ≤ length s.old }
    ensures { s.new ≡ sets s.old at (word_bytes (shared_numbers h)) }
{
    words::write_four(s, at, h.mode, h.format, h.align, h.site.offset);
    s[at + 16..at + 24].copy_from_slice(&h.site.second.to_le_bytes());
}

pub fn write_receive(s: &mut [u8], at: usize, r: Receive)
    requires { at + 32 ≤ length s.old }
    ensures { s.new ≡ sets s.old at (word_bytes (receive_numbers r)) }
{
    words::write_four(
        s,
        at,
        r.filter.active,
        r.filter.code,
        r.filter.mask,
        r.events,
    );
    words::write_four(
        s,
        at + 16,
        r.ring.capacity,
        r.ring.first,
        r.ring.count,
        r.pending,
    );
}

// Writes whether the register is held, and its message.
#[tactic(auto, using(crate::proofs::Laws::register_written))]
pub fn write_register(s: &mut [u8], at: usize, held: bool, m: Message)
    requires { at + 28 ≤ length s.old }
    ensures { (s.new ≡ sets s.old at (register_bytes held m)) × (length m.bytes ≡ 8) }
{
    let h = m.header;
    words::write_word(s, at, held as u32);
    words::write_four(s, at + 4, h.id, h.format, h.rtr, h.dlc);
    s[at + 20..at + 28].copy_from_slice(&m.bytes);
}

pub fn write_send(s: &mut [u8], at: usize, x: Send)
    requires { at + 44 ≤ length s.old }
    ensures { (s.new ≡ sets s.old at (word_bytes (send_numbers x) ++ x.message.bytes))
        × (length x.message.bytes ≡ 8) }
{
    words::write_four(s, at, x.tx, x.ring.capacity, x.ring.first, x.ring.count);
    write_register(s, at + 16, x.held, x.message);
}
