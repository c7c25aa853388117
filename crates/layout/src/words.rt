// Numbers in lent bytes, each in four, lowest first.
ghost use Rattle.std.specs.Prelude.{◌≡◌, ◌∷◌, [], ◌+◌, ◌≤◌, length};
ghost use Rattle.std.proofs.lemmas.List.Edits.{sets};
ghost use Rattle.common.specs.Numbers.{bytes_of};
ghost use Rattle.layout.specs.Parts.{word_bytes, word};

// The number from `at` on.
#[tactic(auto, unfolding(crate::specs::Parts::word))]
pub fn word(s: &[u8], at: usize) -> u32
    requires { at + 4 ≤ length s.now }
    ensures { result ≡ word s.now at }
{
    common::number_at(s, at)
}

// Writes a number from `at` on.
#[tactic(auto, using(crate::proofs::Laws::word_written))]
pub fn write_word(s: &mut [u8], at: usize, n: u32)
    requires { at + 4 ≤ length s.old }
    ensures { s.new ≡ sets s.old at (bytes_of 4 n) }
{
    s[at..at + 4].copy_from_slice(&n.to_le_bytes());
}

// Writes two numbers.
pub fn write_two(s: &mut [u8], at: usize, a: u32, b: u32)
    requires { at + 8 ≤ length s.old }
    ensures { s.new ≡ sets s.old at (word_bytes (a ∷ b ∷ [])) }
{
    write_word(s, at, a);
    write_word(s, at + 4, b);
}

// Writes four numbers.
pub fn write_four(s: &mut [u8], at: usize, a: u32, b: u32, c: u32, d: u32)
    requires { at + 16 ≤ length s.old }
    ensures { s.new ≡ sets s.old at (word_bytes (a ∷ b ∷ c ∷ d ∷ [])) }
{
    write_two(s, at, a, b);
    write_two(s, at + 8, c, d);
}
