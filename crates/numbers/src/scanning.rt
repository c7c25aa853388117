// A message text scanned once, from its first byte through its run of ends.
ghost use Rattle.std.specs.Prelude.{◌≡◌, ◌+◌, length, drop};
ghost use Rattle.numbers.specs.Numbers.{is_end, before_end, end_run};
ghost use Rattle.numbers.specs.Scan.{kept_more, ScanMet};

use crate::{Kept, Scanned};
use digits::reading::{ByteKind, byte_kind, with_digit};

impl Kept {
    // One number more; the twelfth is only counted.
    fn keep(&mut self, v: u64)
        ensures { self.new ≡ kept_more self.old v }
    {
        if self.count < 11 {
            self.at[self.count] = v;
        }
        self.count = self.count.min(11) + 1;
    }
}

// The numbers of a text, up to its first end or through its twelfth number; both loops go on from one place.
#[tactic(auto, using(crate::proofs::Keeping::met_last, crate::proofs::Keeping::met_end))]
pub fn scan(text: &[u8]) -> Scanned
    ensures { ScanMet text.now result }
{
    let mut kept = Kept::default();
    let mut i: usize = 0;
    'numbers: while i < text.len() {
        let mut v = match byte_kind(text[i]) {
            ByteKind::Digit(d) => d as u64,
            ByteKind::Separator => {
                i += 1;
                continue 'numbers;
            }
            ByteKind::End => break 'numbers,
        };
        i += 1;
        'digits: while i < text.len() {
            match byte_kind(text[i]) {
                ByteKind::Digit(d) => v = with_digit(v, d),
                ByteKind::Separator => {
                    i += 1;
                    break 'digits;
                }
                ByteKind::End => {
                    kept.keep(v);
                    break 'numbers;
                }
            }
            i += 1;
        }
        kept.keep(v);
        if kept.count == 12 {
            break 'numbers;
        }
    }
    Scanned { kept, stop: i }
}

// CR, LF or zero.
fn is_end(b: u8) -> bool
    ensures { result ≡ is_end b }
{
    matches!(byte_kind(b), ByteKind::End)
}

// Where the first end from a position on stands, or the text's length.
#[tactic(auto, using(crate::proofs::Ends::before_last, crate::proofs::Ends::before_stop, crate::proofs::Ends::before_more))]
pub fn first_end(text: &[u8], from: usize) -> usize
    ensures { result ≡ from + before_end (drop from text.now) }
{
    for i in from..text.len() {
        if is_end(text[i]) {
            return i;
        }
    }
    from.max(text.len())
}

// The position after the ends that stand in a row at a position.
#[tactic(auto, using(crate::proofs::Ends::run_last, crate::proofs::Ends::run_stop, crate::proofs::Ends::run_more))]
pub fn after_ends(text: &[u8], from: usize) -> usize
    ensures { result ≡ from + end_run (drop from text.now) }
{
    for i in from..text.len() {
        if !is_end(text[i]) {
            return i;
        }
    }
    from.max(text.len())
}
