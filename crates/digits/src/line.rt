// A line of text of at most N bytes: each writer appends to it.
ghost use Rattle.std.specs.Prelude.{◌≡◌, ℕ, ◌∷◌, [], ◌++◌, ◌+◌, ◌*◌, ◌≤◌, ◌<◌, List, length, take, drop};
ghost use Rattle.digits.specs.Digits.{hex, decimal, fields};

use crate::writing;
use std::marker::Model;

#[derive(Clone, Drop)]
pub struct Line<const N: usize> {
    bytes: [u8; N],
    len: usize,
}

// Clauses see the bytes written so far.
impl<const N: usize> Model for Line<N> {
    ghost Value = { List ℕ };

    ghost view = { λ l. take l.len l.bytes };

    ghost invariant = { λ l. l.len ≤ N };
}

impl<const N: usize> Line<N> {
    pub fn new() -> Self
        ensures { result ≡ [] }
    {
        Line {
            bytes: [0; N],
            len: 0,
        }
    }

    pub fn as_bytes(&self) -> &[u8]
        ensures { result.now ≡ self.now }
    {
        &self.bytes[..self.len]
    }

    pub fn len(&self) -> usize
        ensures { result ≡ length self.now }
    {
        self.as_bytes().len()
    }

    // Copies the line over the front of a buffer, and says how long it is.
    pub fn copy_to(&self, out: &mut [u8]) -> usize
        requires { length self.now ≤ length out.old }
        ensures bytes { out.new ≡ self.now ++ drop (length self.now) out.old }
        ensures count { result ≡ length self.now }
    {
        out[..self.len].copy_from_slice(self.as_bytes());
        self.len
    }

    #[tactic(auto, using(crate::proofs::Written::appended, crate::proofs::Lengths::lengths))]
    pub fn byte(&mut self, b: u8)
        requires { length self.old < N }
        ensures { self.new ≡ self.old ++ b ∷ [] }
    {
        self.len = writing::put_byte(&mut self.bytes, self.len, b);
    }

    // A text as it is.
    #[tactic(auto, using(crate::proofs::Written::appended, crate::proofs::Lengths::lengths))]
    pub fn text(&mut self, text: &[u8])
        requires { length self.old + length text.now ≤ N }
        ensures { self.new ≡ self.old ++ text.now }
    {
        self.len = writing::put_text(&mut self.bytes, self.len, text);
    }

    // The w lowest hexadecimal digits of n, the highest first.
    #[tactic(auto, using(crate::proofs::Written::appended, crate::proofs::Lengths::lengths))]
    pub fn hex(&mut self, n: u32, w: u32)
        requires width { w ≤ 8 }
        requires room { length self.old + w ≤ N }
        ensures { self.new ≡ self.old ++ hex w n }
    {
        self.len = writing::put_hex(&mut self.bytes, self.len, n, w);
    }

    // A number in decimal, without leading zeros.
    #[tactic(auto, using(crate::proofs::Written::appended, crate::proofs::Lengths::lengths))]
    pub fn decimal(&mut self, n: u64)
        requires { length self.old + length (decimal n) ≤ N }
        ensures { self.new ≡ self.old ++ decimal n }
    {
        self.len = writing::put_decimal(&mut self.bytes, self.len, n);
    }

    // A separator and the w lowest hexadecimal digits of n.
    #[tactic(auto, using(crate::proofs::Written::appended, crate::proofs::Lengths::lengths))]
    pub fn field(&mut self, separator: u8, n: u32, w: u32)
        requires width { w ≤ 8 }
        requires room { length self.old + 1 + w ≤ N }
        ensures { self.new ≡ self.old ++ separator ∷ hex w n }
    {
        self.len = writing::put_field(&mut self.bytes, self.len, separator, n, w);
    }

    // A separator and a number in decimal.
    #[tactic(auto, using(crate::proofs::Written::appended, crate::proofs::Lengths::lengths))]
    pub fn number(&mut self, separator: u8, n: u64)
        requires { length self.old + length (separator ∷ decimal n) ≤ N }
        ensures { self.new ≡ self.old ++ separator ∷ decimal n }
    {
        self.len = writing::put_number(&mut self.bytes, self.len, separator, n);
    }

    // Each byte as two hexadecimal digits behind a separator.
    #[tactic(auto, using(crate::proofs::Written::appended, crate::proofs::Lengths::lengths))]
    pub fn bytes(&mut self, separator: u8, b: &[u8])
        requires { length self.old + 3 * length b.now ≤ N }
        ensures { self.new ≡ self.old ++ fields separator b.now }
    {
        self.len = writing::put_bytes(&mut self.bytes, self.len, separator, b);
    }
}
