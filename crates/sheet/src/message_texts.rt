// The message texts of the sheet.
use crate::setting;
use common::refusals::Refusal;
use device::Device;
use events::records::EVENT;
use messages::records::MESSAGE;
use outbox::TextSent;
use recorder::{register, sending};

// The 16 bytes of a message taken, or the refusal, and the bytes used.
fn write_taken(rt: &impl Print, taken: Result<[u8; MESSAGE], Refusal>, used: usize) {
    match taken {
        Ok(bytes) => {
            show::write_text(rt, b"taken, ");
            show::write_number(rt, used);
            show::write_text(rt, b" used: ");
            show::write_line(rt, &show::record_line(bytes));
        }
        Err(why) => show::write_refused(rt, why.number(), used),
    }
}

// Sends a text, and takes its message.
fn send(rt: &impl Print, mut d: Device, text: &[u8]) {
    let mut table = [0; MESSAGE];
    let TextSent { used, sent } = sending::send_text(&mut d, text, &mut table);
    let taken = sent.and_then(|()| register::take(&mut d, 0, &table, &mut [0; EVENT]));
    write_taken(rt, taken, used);
}

// A text, its closing quote and the paper's words.
fn case(rt: &impl Print, d: Device, proved: bool, words: &[u8]) {
    show::words::mark(rt, proved);
    show::words::write_case(rt, words);
    let closing = words.iter().position(|&b| b == b'"').unwrap_or(words.len());
    send(rt, d, &words[..closing]);
}

fn ends_and_identifiers(rt: &impl Print, d: Device) {
    case(rt, d, true, b"731 0 4 11 22 33 44\r\n\": taken, 21 used");
    case(rt, d, true, b"731 0 0\": 6");
    case(rt, d, true, b"\n\": 7, 1 used");
    case(rt, d, true, b"7FF 0 0\n\" taken");
    case(rt, d, true, b"800 0 0\n\": 8");
}

fn other_fields(rt: &impl Print, d: Device) {
    case(rt, d, false, b"731 0 F 1 2 3 4 5 6 7 8\n\" taken");
    case(rt, d, false, b"731 0 10\n\": 10");
    case(
        rt,
        d,
        true,
        b"0x100 0 0\n\": x separates, so rtr is 100: refusal 9, 10 used",
    );
    case(rt, d, true, b"731 1 4\n\" taken, no bytes");
    case(rt, d, false, b"731 0 2 11\n\": 7");
    case(rt, d, false, b"731 0 1 100\n\": 12");
}

// Each case begins with a device of its own, as it was opened.
pub fn cases(rt: &impl Print) -> Result<(), Refusal> {
    let d = setting::open(0, 0, 0, 1)?;
    ends_and_identifiers(rt, d);
    other_fields(rt, d);
    Ok(())
}
