// What several layers share: why a call is refused, rings of slots, and the number that four bytes stand for.
#![tactic(auto)]

pub mod refusals;
pub mod rings;

ghost use Rattle.std.specs.Prelude.{◌≡◌, ◌+◌, ◌≤◌, length};
ghost use Rattle.std.proofs.Math.Seq.{slice};
ghost use Rattle.common.specs.Numbers.{number_of};

// A ring of slots in a lent table: the oldest of `count` is in slot `first`.
#[derive(Clone, Copy)]
pub struct Ring {
    pub capacity: u32,
    pub first: u32,
    pub count: u32,
}

// The number that the four bytes from `at` on stand for, lowest first.
#[tactic(auto, using(crate::proofs::LittleEndian::from_32))]
pub fn number_at(s: &[u8], at: usize) -> u32
    requires { at + 4 ≤ length s.now }
    ensures { result ≡ number_of (slice at (at + 4) s.now) }
{
    u32::from_le_bytes([s[at], s[at + 1], s[at + 2], s[at + 3]])
}
