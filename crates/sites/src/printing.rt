// A site as text, written into a lent buffer: TAB, sign and hh:mm, TAB, the second in decimal.
ghost use Rattle.std.specs.Prelude.{◌≡◌, true, ◌+◌, ◌<◌, ◌≤◌, length};
ghost use Rattle.digits.specs.Written.{Put};
ghost use Rattle.sites.specs.Sites.{good_offset, good_site};
ghost use Rattle.sites.specs.Texts.{sign_of, minutes, two_digits, offset_text, site_text};

use crate::Site;
use digits::writing;

// The offsets from here on are below zero, in two's complement.
const WEST: u32 = 0x8000_0000;

// The sign of an offset: plus for zero.
fn sign_of(n: u32) -> u8
    ensures { result ≡ sign_of n }
{
    if n < WEST { b'+' } else { b'-' }
}

// The minutes of an offset without their sign: fourteen hours at most.
#[tactic(auto, unfolding(crate::specs::Sites::good_offset))]
fn minutes(n: u32) -> u32
    requires { good_offset n ≡ true }
    ensures count { result ≡ minutes n }
    ensures few { result ≤ 840 }
{
    if n < WEST { n } else { n.wrapping_neg() }
}

// A number below a hundred as two digits.
fn put_two(out: &mut [u8], at: usize, k: u32) -> usize
    requires { (k < 100) × (at + 2 ≤ length out.old) }
    ensures { Put out.old at (two_digits k) out.new result }
{
    let at = writing::put_byte(out, at, b'0' + (k / 10) as u8);
    writing::put_byte(out, at, b'0' + (k % 10) as u8)
}

// The sign, the hours, a colon and the minutes.
#[tactic(auto, unfolding(crate::specs::Texts::offset_text))]
fn put_offset(out: &mut [u8], at: usize, n: u32) -> usize
    requires { (good_offset n ≡ true) × (at + 6 ≤ length out.old) }
    ensures { Put out.old at (offset_text n) out.new result }
{
    let m = minutes(n);
    let at = writing::put_byte(out, at, sign_of(n));
    let at = put_two(out, at, m / 60);
    let at = writing::put_byte(out, at, b':');
    put_two(out, at, m % 60)
}

// A site's two fields, each behind a TAB.
#[tactic(auto, using(crate::proofs::Good::good_site_lem, crate::proofs::Lengths::site_length, crate::proofs::Lengths::offset_length))]
pub fn put_site(out: &mut [u8], at: usize, s: Site) -> usize
    requires { (good_site s ≡ true) × (at + length (site_text s) ≤ length out.old) }
    ensures { Put out.old at (site_text s) out.new result }
{
    let at = writing::put_byte(out, at, b'\t');
    let at = put_offset(out, at, s.offset);
    writing::put_number(out, at, b'\t', s.second)
}
