// Every public call on an open device: it answers a value or why it is refused, and a refused call changes nothing.
#![tactic(auto)]

pub mod changes;
pub mod printing;
pub mod receiving;
pub mod register;
pub mod sending;
