// One send channel: every call on it, over the shared settings, the channel and its table.
// A call is a check, which may refuse it, and an effect.
#![tactic(auto)]

pub mod calls;
mod checks;

use common::refusals::Refusal;
use events::Raise;
use messages::records::MESSAGE;

// What send_text answers: the bytes of text used, refused or not, and whether the message was put in.
#[derive(Clone, Copy)]
pub struct TextSent {
    pub used: usize,
    pub sent: Result<(), Refusal>,
}

// What take answers: the message's bytes, and the event that the call raises.
#[derive(Clone, Copy)]
pub struct Taken {
    pub bytes: [u8; MESSAGE],
    pub raised: Option<Raise>,
}

// What abort answers: how many messages were purged, and the event that the call raises.
#[derive(Clone, Copy)]
pub struct Aborted {
    pub purged: u32,
    pub raised: Option<Raise>,
}
