// A site's 8 bytes: the offset, then the second.
ghost use Rattle.std.specs.Prelude.{◌≡◌, ◌+◌, ◌<◌, ◌≤◌, length};
ghost use Rattle.std.proofs.Math.Seq.{slice};
ghost use Rattle.sites.specs.Sites.{extended, site_bytes, site_in};

use crate::Site;

// The bytes of a site.
pub const SITE: usize = 8;

impl Site {
    // Its bytes: the lowest two of the offset, and the lowest six of the second.
    #[tactic(auto, unfolding(crate::specs::Sites::site_bytes), using(common::proofs::LittleEndian::to_32, common::proofs::LittleEndian::to_64))]
    pub fn record(self) -> [u8; SITE]
        ensures { result ≡ site_bytes self }
    {
        let mut b = [0; SITE];
        b[..2].copy_from_slice(&self.offset.to_le_bytes()[..2]);
        b[2..].copy_from_slice(&self.second.to_le_bytes()[..6]);
        b
    }
}

// A stored offset with its sign extended.
fn extended(n: u32) -> u32
    requires { n < 65536 }
    ensures { result ≡ extended n }
{
    if n < 32768 { n } else { n + 4294901760 }
}

// The site in the eight bytes from `at` on.
#[tactic(auto, using(crate::proofs::RoundTrip::site_read))]
pub fn site_at(s: &[u8], at: usize) -> Site
    requires { at + 8 ≤ length s.now }
    ensures { result ≡ site_in (slice at (at + 8) s.now) }
{
    let n = u16::from_le_bytes([s[at], s[at + 1]]);
    let second = [
        s[at + 2],
        s[at + 3],
        s[at + 4],
        s[at + 5],
        s[at + 6],
        s[at + 7],
        0,
        0,
    ];
    Site {
        offset: extended(n as u32),
        second: u64::from_le_bytes(second),
    }
}
