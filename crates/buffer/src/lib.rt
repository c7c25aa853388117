// A send channel: what it keeps, possible or not; how it changes.
#![tactic(auto)]

pub mod channel;

use common::Ring;
use messages::Message;

// A send channel: TxMode, its ring of messages, and the register, which holds a message or none. The message stays a
// field of its own beside `held`: a kept state whose register is empty gives back every byte that stands in it.
#[derive(Clone, Copy)]
pub struct Send {
    pub tx: u32,
    pub ring: Ring,
    pub held: bool,
    pub message: Message,
}
