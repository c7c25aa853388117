// The eight data bytes of a frame, of which it carries the first n: one number, so that no byte is looked at alone.
ghost use Rattle.std.specs.Prelude.{◌≡◌, ◌++◌, ◌-◌, ◌^◌, ◌<◌, length, drop, replicate, take};
ghost use Rattle.common.specs.Numbers.{number_of, all_zero};

// The number that eight bytes stand for, lowest first.
#[tactic(auto, using(common::proofs::LittleEndian::from_64))]
fn number_of(b: &[u8]) -> u64
    requires { length b.now ≡ 8 }
    ensures { result ≡ number_of b.now }
{
    u64::from_le_bytes([b[0], b[1], b[2], b[3], b[4], b[5], b[6], b[7]])
}

// 256 to the power n.
#[tactic(auto, using(crate::proofs::Data::power_shl))]
fn power(n: u32) -> u64
    requires { n < 8 }
    ensures { result ≡ 256 ^ n }
{
    1 << (8 * n)
}

// All bytes past the first n are zero.
#[tactic(auto, using(crate::proofs::Data::past, crate::proofs::Data::none_past))]
pub fn zero_past(b: &[u8], n: u32) -> bool
    requires { length b.now ≡ 8 }
    ensures { result ≡ all_zero (drop n b.now) }
{
    8 <= n || number_of(b) < power(n)
}

// The first n bytes, and zeros for the others.
#[tactic(auto, using(crate::proofs::Data::kept, crate::proofs::Data::all_kept, crate::proofs::Data::power_not_zero))]
pub fn keep_first(b: &[u8], n: u32) -> [u8; 8]
    requires { length b.now ≡ 8 }
    ensures { result ≡ take n b.now ++ replicate (8 - n) 0 }
{
    let d = number_of(b);
    if n < 8 {
        return (d % power(n)).to_le_bytes();
    }
    d.to_le_bytes()
}
