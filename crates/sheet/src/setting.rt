// The device of a case, and its frames.
use common::refusals::Refusal;
use device::Device;
use events::records::EVENT;
use ids::Header;
use messages::Message;
use settings::Settings;
use sites::Site;

// Mode 0 and MaskActive 0, every event let through, room for one message.
fn settings(align: u32, code: u32, mask: u32, capacity: u32) -> Settings {
    Settings {
        mode: 0,
        format: 0,
        align,
        active: 0,
        code,
        mask,
        events: 0xFFF,
        queue: capacity,
        tx: 1,
        buffer: 1,
        site: Site::default(),
    }
}

// Opens a device of capacity 1 or 2; no byte of the tables is written, so that each case lends its own to the calls.
pub fn open(align: u32, code: u32, mask: u32, capacity: u32) -> Result<Device, Refusal> {
    let table = [0; 2 * EVENT];
    device::opening::open(settings(align, code, mask, capacity), &table, &table)
}

// A standard frame that holds two bytes.
pub fn frame(id: u32, rtr: u32, dlc: u32, data: [u8; 2]) -> Message {
    let [first, second] = data;
    Message {
        header: Header {
            id,
            format: 1,
            rtr,
            dlc,
        },
        bytes: [first, second, 0, 0, 0, 0, 0, 0],
    }
}
