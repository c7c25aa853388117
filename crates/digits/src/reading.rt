// Hexadecimal digits read from a text: what a byte is, and a number with one more digit.
ghost use Rattle.std.specs.Prelude.{◌≡◌, ◌+◌, ◌*◌};
ghost use Rattle.digits.specs.Reading.{byte_kind, capped};

// What a byte is in a message text.
#[derive(Clone, Copy)]
pub enum ByteKind {
    Digit(u8),
    Separator,
    End,
}

// A digit in either letter case, an end (CR, LF, zero), or a separator.
#[tactic(auto, unfolding(crate::specs::Reading::byte_kind))]
pub fn byte_kind(b: u8) -> ByteKind
    ensures { result ≡ byte_kind b }
{
    match b {
        b'\0' | b'\n' | b'\r' => ByteKind::End,
        b'0'..=b'9' => ByteKind::Digit(b - b'0'),
        b'A'..=b'F' => ByteKind::Digit(b - b'A' + 10),
        b'a'..=b'f' => ByteKind::Digit(b - b'a' + 10),
        _ => ByteKind::Separator,
    }
}

// A number with one more digit, or 2 ^ 32 where it is larger.
pub fn with_digit(v: u64, d: u8) -> u64
    ensures { result ≡ capped (v * 16 + d) }
{
    (v.min(1 << 32) * 16 + d as u64).min(1 << 32)
}
