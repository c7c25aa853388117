// The device that the texts are sent to, and the message of a text that was sent, taken again.
use common::refusals::Refusal;
use device::Device;
use events::records::EVENT;
use messages::records::MESSAGE;
use recorder::register;
use settings::Settings;
use sites::Site;

// Mode 0, Align 0, MaskActive 0; no event is recorded; one place in each ring is enough.
fn settings() -> Settings {
    Settings {
        mode: 0,
        format: 0,
        align: 0,
        active: 0,
        code: 0,
        mask: 0,
        events: 0,
        queue: 1,
        tx: 1,
        buffer: 1,
        site: Site::default(),
    }
}

// Opens a device; no byte of the tables is written, so that others are lent to the calls.
pub fn open() -> Result<Device, Refusal> {
    device::opening::open(settings(), &[0; EVENT], &[0; MESSAGE])
}

// Takes the message that was sent and empties the register, so that the next one can be sent; no event is recorded, so
// that any queue will do.
pub fn take(d: &mut Device, send: &[u8]) -> Result<[u8; MESSAGE], Refusal> {
    let bytes = register::take(d, 0, send, &mut [0; EVENT])?;
    register::done(d, 0, &mut [0; EVENT])?;
    Ok(bytes)
}
