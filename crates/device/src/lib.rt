// One CAN device: its settings, its receive channel and its send channel, possible or not; opening one.
#![tactic(auto)]

pub mod opening;
pub mod state;

use buffer::Send;
use queue::Receive;
use settings::Shared;

// The whole state of a device, by value.
#[derive(Clone, Copy)]
pub struct Device {
    pub shared: Shared,
    pub receive: Receive,
    pub send: Send,
}
