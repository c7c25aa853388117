// The queue and its lost counts: an event is known again by its tick, here a letter or a digit.
// A script is a byte for each call: a name raises an event; a sign, which is below any name, reads the oldest one.
use crate::setting;
use common::refusals::Refusal;
use device::Device;
use events::Raise;
use events::records::EVENT;
use recorder::receiving;

// The name of an event, and its lost count if asked for.
fn write_event(rt: &impl Print, event: [u8; EVENT], lost: bool) {
    show::write_text(rt, &[event[4]]);
    if lost {
        show::write_text(rt, b" has lost ");
        show::write_number(rt, common::number_at(&event, 12));
    }
}

// Reads the oldest event, if any, as the sign says: a dot shows it, a comma sets it off from the one before, a minus
// leaves it out.
fn read(rt: &impl Print, d: &mut Device, sign: u8, lost: bool, queue: &[u8]) {
    let Ok(event) = receiving::read_record(d, queue) else {
        return;
    };
    if sign == b'-' {
        return;
    }
    if sign == b',' {
        show::write_text(rt, b", ");
    }
    write_event(rt, event, lost);
}

// Raises an event, which the queue may lose.
fn raise(d: &mut Device, name: u8, queue: &mut [u8]) {
    let event = Raise {
        code: 1,
        tick: u32::from(name),
        frame: setting::frame(0x123, 0, 2, [0x11, 0x22]),
    };
    let _ = receiving::raise(d, event, queue);
}

// Makes the calls of a script on a new device, whose filter lets every frame pass.
pub fn play(
    rt: &impl Print,
    script: &[u8],
    lost: bool,
    queue: &mut [u8],
) -> Result<Device, Refusal> {
    let capacity = u32::try_from(queue.len() / EVENT).unwrap_or(u32::MAX);
    let mut d = setting::open(0, 0, 0xFFFFFFFF, capacity)?;
    for &call in script {
        if call < b'0' {
            read(rt, &mut d, call, lost, queue);
        } else {
            raise(&mut d, call, queue);
        }
    }
    Ok(d)
}

fn case(
    rt: &impl Print,
    said: &[u8],
    script: &[u8],
    lost: bool,
    queue: &mut [u8],
) -> Result<(), Refusal> {
    show::words::says(rt, said);
    play(rt, script, lost, queue)?;
    show::end_line(rt);
    Ok(())
}

// Events read and events still queued were recorded.
fn recorded(rt: &impl Print) -> Result<(), Refusal> {
    case(
        rt,
        b"Raise 1, 2, read, raise 3, 4, read, raise 5: capacity 1 records 1, 3, 5",
        b"12.34,5,,",
        false,
        &mut [0; EVENT],
    )?;
    case(
        rt,
        b"capacity 2 records 1, 2, 3, 5",
        b"12.34,5,,",
        false,
        &mut [0; 2 * EVENT],
    )
}

pub fn cases(rt: &impl Print) -> Result<(), Refusal> {
    case(
        rt,
        b"P capacity 1, raise A, B, C, read, raise D: A has lost 0, D has lost 2",
        b"ABC.D,",
        true,
        &mut [0; EVENT],
    )?;
    recorded(rt)
}
