// Identifiers under an Align, and a frame's header.
#![tactic(auto)]

pub mod align;
pub mod frame;

// A frame's header: its data bytes stand beside it. Any numbers; `check` judges them.
#[derive(Clone, Copy, Default)]
pub struct Header {
    pub id: u32,
    pub format: u32,
    pub rtr: u32,
    pub dlc: u32,
}
