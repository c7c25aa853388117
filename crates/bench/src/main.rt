// Sends each message text of standard input in turn and prints the message's 16 bytes, or the refusal and bytes used.
#![tactic(auto)]

mod input;
mod page;
mod sending;

ghost use Rattle.std.specs.Prelude.{◌≤◌, ◌<◌};

use device::Device;
use digits::Line;
use messages::records::MESSAGE;
use outbox::TextSent;

// The bytes used of those there are: where none were used, as on refusal 6, there is nothing left to send.
fn used_of(used: usize, length: usize) -> usize
    ensures { (result ≤ length) × (0 < length → 0 < result) }
{
    if used == 0 { length } else { used.min(length) }
}

// Sends the texts one behind the other: what follows the bytes used is handed on as a part.
fn run(rt: &impl Print, mut device: Device, texts: &[u8]) {
    let mut send = [0; MESSAGE];
    let mut page = Line::new();
    let mut rest = texts;
    while !rest.is_empty() {
        let TextSent { used, sent } = recorder::sending::send_text(&mut device, rest, &mut send);
        let line = match sent.and_then(|()| sending::take(&mut device, &send)) {
            Ok(bytes) => show::record_line(bytes),
            Err(why) => show::refused_line(why.number(), used),
        };
        page::make_room(rt, &mut page, line.len());
        page.text(line.as_bytes());
        rest = &rest[used_of(used, rest.len())..];
    }
    show::write_line(rt, &page);
}

// Runs on a device, where one can be opened.
fn send_all(rt: &impl Print, texts: &[u8]) {
    match sending::open() {
        Ok(device) => run(rt, device, texts),
        Err(_) => show::write_text(rt, b"no device can be opened\n"),
    }
}

fn main(rt: HostRuntime) {
    let mut text = [0; input::ROOM];
    match input::read_input(&mut rt.stdin(), &mut text) {
        Ok(n) => send_all(&rt, &text[..n]),
        Err(_) => show::write_text(&rt, b"the input cannot be read\n"),
    }
}
