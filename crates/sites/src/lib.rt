// The site of a device: its type, its bytes, and its text.
#![tactic(auto)]

pub mod printing;
pub mod ranges;
pub mod records;

// What places an event in the world's time: minutes from UTC, and the UTC second at which tick zero fell.
#[derive(Clone, Copy, Default)]
pub struct Site {
    pub offset: u32,
    pub second: u64,
}
