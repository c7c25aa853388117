// The acceptance filter and the event mask.
#![tactic(auto)]

pub mod acceptance;
pub mod event_mask;

// A receive channel's acceptance filter: MaskActive, code and mask.
#[derive(Clone, Copy)]
pub struct Filter {
    pub active: u32,
    pub code: u32,
    pub mask: u32,
}
