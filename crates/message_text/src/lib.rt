// Message text: read, and printed.
#![tactic(auto)]

pub mod printing;
pub mod reading;

use common::refusals::Refusal;
use messages::Message;

// What a text says: a message, or why it says none; and the bytes used, of either.
#[derive(Clone, Copy)]
pub struct Said {
    pub said: Result<Message, Refusal>,
    pub used: usize,
}
