// Messages: their type, their bytes, and bytes judged good or damaged.
#![tactic(auto)]

mod carried;
pub mod records;

use ids::Header;

// A message, or the frame of an event: its header and its eight data bytes.
#[derive(Clone, Copy, Default)]
pub struct Message {
    pub header: Header,
    pub bytes: [u8; 8],
}
