// Identifiers under an Align, the filter, and the identifiers that it lets through.
use crate::setting;
use common::refusals::Refusal;
use events::Raise;
use events::records::EVENT;
use message_text::printing::ROOM;
use queue::Met;
use recorder::{printing, receiving};

// Prints raw identifier 731.
fn print(align: u32, out: &mut [u8]) -> Result<usize, Refusal> {
    let d = setting::open(align, 0, 0, 1)?;
    printing::print_message(d, setting::frame(0x731, 0, 0, [0; 2]), out)
}

fn shown(rt: &impl Print, said: &[u8], align: u32) {
    show::words::says(rt, said);
    let mut out = [0; ROOM];
    match print(align, &mut out) {
        Ok(n) => show::write_front(rt, &out, n),
        Err(why) => show::write_refused(rt, why.number(), 0),
    }
}

// Raises frame 200 as received.
fn raise(dlc: u32, first: u8) -> Result<Met, Refusal> {
    let mut d = setting::open(0, 0x40000100, 0x000000FF, 1)?;
    let event = Raise {
        code: 1,
        tick: 0,
        frame: setting::frame(0x200, 0, dlc, [first, 7]),
    };
    receiving::raise(&mut d, event, &mut [0; EVENT])
}

fn met(rt: &impl Print, said: &[u8], dlc: u32, first: u8) {
    show::words::says(rt, said);
    show::words::write_met(rt, raise(dlc, first));
}

// Counts the standard identifiers let through at Align 1.
fn count(code: u32, mask: u32) -> Result<u32, Refusal> {
    let d = setting::open(1, code, mask, 1)?;
    receiving::identifiers_through(d, 1)
}

fn through(rt: &impl Print, said: &[u8], code: u32, mask: u32) {
    show::words::says(rt, said);
    match count(code, mask) {
        Ok(n) => {
            show::write_number(rt, n);
            show::end_line(rt);
        }
        Err(why) => show::write_refused(rt, why.number(), 0),
    }
}

fn aligned(rt: &impl Print) {
    shown(rt, b"P raw 731 shows as 1CC40000 at Align 2", 2);
    shown(rt, b"P E6200000 at Align 3", 3);
}

fn filtered(rt: &impl Print) {
    met(
        rt,
        b"P code 40000100, mask 000000FF: frame 200 with 01 07 passes",
        2,
        1,
    );
    met(rt, b"P with 02 07 it doesn't", 2, 2);
    met(rt, b"with dlc 0 it passes", 0, 2);
}

pub fn cases(rt: &impl Print) {
    aligned(rt);
    filtered(rt);
    through(
        rt,
        b"P Align 1, code 400, mask 3FF: 1,024 identifiers",
        0x400,
        0x3FF,
    );
    through(rt, b"Code 3FA, mask 1: two", 0x3FA, 1);
}
