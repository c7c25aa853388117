// What stands before and behind a computed value of the bench sheet.
use crate::{write_number, write_text};
use common::refusals::Refusal;
use queue::Met;

// Writes the paper's words for a case, and what sets them off from the value.
pub fn says(rt: &impl Print, words: &[u8]) {
    write_text(rt, words);
    write_text(rt, b" => ");
}

// Writes the paper's mark of the cases that are proved as well.
pub fn mark(rt: &impl Print, proved: bool) {
    if proved {
        write_text(rt, b"P ");
    }
}

// Writes a text from its opening quote on, each end as the paper writes it, with the paper's words behind its closing
// one, and what sets them off.
pub fn write_case(rt: &impl Print, text: &[u8]) {
    write_text(rt, b"\"");
    for &b in text {
        match b {
            b'\n' => write_text(rt, b"\\n"),
            b'\r' => write_text(rt, b"\\r"),
            _ => write_text(rt, &[b]),
        }
    }
    write_text(rt, b" => ");
}

// Writes the number of a raise and what the paper calls what its event met, and LF.
pub fn write_met(rt: &impl Print, raised: Result<Met, Refusal>) {
    write_number(rt, raised.map_or_else(Refusal::number, Met::number));
    let what: &[u8] = match raised {
        Ok(Met::Recorded) => b", recorded\n",
        Ok(Met::Filtered) => b", filtered\n",
        Ok(Met::Masked) => b", masked\n",
        Ok(Met::Lost) => b", lost\n",
        Err(_) => b", refused\n",
    };
    write_text(rt, what);
}
