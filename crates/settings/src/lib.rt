// What opening is given, what all channels share, in range or not, and what the settings say of a message.
#![tactic(auto)]

pub mod binary;
pub mod channel;
pub mod given;
pub mod ranges;
pub mod txmode;

use sites::Site;

// What all channels of a device share.
#[derive(Clone, Copy)]
pub struct Shared {
    pub mode: u32,
    pub format: u32,
    pub align: u32,
    pub site: Site,
}

// What opening is given: MaskActive is `active`, the event mask `events`, TxMode `tx`; `queue` and `buffer` are the
// capacities.
#[derive(Clone, Copy)]
pub struct Settings {
    pub mode: u32,
    pub format: u32,
    pub align: u32,
    pub active: u32,
    pub code: u32,
    pub mask: u32,
    pub events: u32,
    pub queue: u32,
    pub tx: u32,
    pub buffer: u32,
    pub site: Site,
}
