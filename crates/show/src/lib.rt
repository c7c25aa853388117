// What the programs show: lines of 32 digits or of a refusal, and words and numbers on standard output.
#![tactic(auto)]

pub mod words;

ghost use Rattle.std.specs.Prelude.{◌≡◌, ◌≤◌, length};
ghost use Rattle.show.specs.Lines.{record_line, refused_line};

use digits::Line;
use std::fmt::Display;

// The bytes of the longest line: that of a refusal, with a number of ten digits and a count of twenty.
pub const LINE: usize = 45;

// A message's 16 bytes as 32 digits, and LF.
#[tactic(auto, using(digits::proofs::Lengths::lengths))]
pub fn record_line(b: [u8; 16]) -> Line<LINE>
    ensures line { result ≡ record_line b }
    ensures short { length result ≤ LINE }
{
    let mut line = Line::new();
    for x in b {
        line.hex(u32::from(x), 2);
    }
    line.byte(b'\n');
    line
}

// The refusal and the bytes used, and LF.
#[tactic(auto, using(digits::proofs::Lengths::lengths, digits::proofs::Lengths::decimal_length_le, digits::proofs::Lengths::decimal_cut_le))]
pub fn refused_line(number: u32, used: usize) -> Line<LINE>
    ensures line { result ≡ refused_line number used }
    ensures short { length result ≤ LINE }
{
    let mut line = Line::new();
    line.text(b"refused ");
    line.decimal(u64::from(number));
    line.text(b" used ");
    line.decimal(used as u64);
    line.byte(b'\n');
    line
}

// Writes bytes as they are.
pub fn write_text(rt: &impl Print, text: &[u8]) {
    let _ = rt.write_all(text);
}

// Ends a line.
pub fn end_line(rt: &impl Print) {
    write_text(rt, b"\n");
}

// Writes the first n bytes of a buffer, if it has as many.
pub fn write_front(rt: &impl Print, buffer: &[u8], n: usize) {
    if let Some(front) = buffer.get(..n) {
        write_text(rt, front);
    }
}

// Writes a line.
pub fn write_line<const N: usize>(rt: &impl Print, line: &Line<N>) {
    write_text(rt, line.as_bytes());
}

// Writes the line of a refusal.
pub fn write_refused(rt: &impl Print, number: u32, used: usize) {
    write_line(rt, &refused_line(number, used));
}

// Writes a number in decimal.
pub fn write_number(rt: &impl Print, n: impl Display + Drop) {
    let _ = rt.print(n);
}
