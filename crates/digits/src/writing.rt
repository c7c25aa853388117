// Digits written into a lent buffer from a place on: each writer answers the place after what it wrote.
ghost use Rattle.std.specs.Prelude.{◌≡◌, ◌∷◌, [], ◌+◌, ◌*◌, ◌≤◌, ◌<◌, length};
ghost use Rattle.digits.specs.Digits.{hex_digit, hex, decimal, fields};
ghost use Rattle.digits.specs.Written.{Put};

// One byte.
pub fn put_byte(out: &mut [u8], at: usize, b: u8) -> usize
    requires { at < length out.old }
    ensures { Put out.old at (b ∷ []) out.new result }
{
    out[at] = b;
    at + 1
}

// A text as it is.
pub fn put_text(out: &mut [u8], at: usize, text: &[u8]) -> usize
    requires { at + length text.now ≤ length out.old }
    ensures { Put out.old at text.now out.new result }
{
    for i in 0..text.len() {
        out[at + i] = text[i];
    }
    at + text.len()
}

// The upper case hexadecimal digit of a value below 16.
#[tactic(auto, unfolding(crate::specs::Digits::hex_digit))]
fn digit(d: u8) -> u8
    requires { d < 16 }
    ensures { result ≡ hex_digit d }
{
    if d < 10 { b'0' + d } else { b'A' - 10 + d }
}

// The w lowest hexadecimal digits of n, the highest first.
pub fn put_hex(out: &mut [u8], at: usize, n: u32, w: u32) -> usize
    requires { (w ≤ 8) × (at + w ≤ length out.old) }
    ensures { Put out.old at (hex w n) out.new result }
{
    let mut end = at;
    for k in (0..w).rev() {
        out[end] = digit(((n >> (4 * k)) % 16) as u8);
        end += 1;
    }
    end
}

// How many digits a number has in decimal.
fn digits_in(n: u64) -> usize
    ensures { result ≡ length (decimal n) }
{
    let mut rest = n;
    let mut w: usize = 1;
    while 10 <= rest {
        rest /= 10;
        w += 1;
    }
    w
}

// A number in decimal, without leading zeros: its last digit first.
pub fn put_decimal(out: &mut [u8], at: usize, n: u64) -> usize
    requires { at + length (decimal n) ≤ length out.old }
    ensures { Put out.old at (decimal n) out.new result }
{
    let end = at + digits_in(n);
    let mut rest = n;
    for i in (at..end).rev() {
        out[i] = b'0' + (rest % 10) as u8;
        rest /= 10;
    }
    end
}

// A separator and the w lowest hexadecimal digits of n.
pub fn put_field(out: &mut [u8], at: usize, separator: u8, n: u32, w: u32) -> usize
    requires { (w ≤ 8) × (at + (w + 1) ≤ length out.old) }
    ensures { Put out.old at (separator ∷ hex w n) out.new result }
{
    let from = put_byte(out, at, separator);
    put_hex(out, from, n, w)
}

// A separator and a number in decimal.
pub fn put_number(out: &mut [u8], at: usize, separator: u8, n: u64) -> usize
    requires { at + length (separator ∷ decimal n) ≤ length out.old }
    ensures { Put out.old at (separator ∷ decimal n) out.new result }
{
    let from = put_byte(out, at, separator);
    put_decimal(out, from, n)
}

// Each byte as two hexadecimal digits behind a separator.
pub fn put_bytes(out: &mut [u8], at: usize, separator: u8, b: &[u8]) -> usize
    requires { at + 3 * length b.now ≤ length out.old }
    ensures { Put out.old at (fields separator b.now) out.new result }
{
    let mut end = at;
    for x in b {
        end = put_field(out, end, separator, u32::from(*x), 2);
    }
    end
}
