// The numbers of a message text, and its ends.
#![tactic(auto)]

pub mod scanning;

// The first eleven numbers of a text, each at most 2 ^ 32, and how many there are, at most 12: the count is one more than
// the list can hold where numbers are left out.
#[derive(Clone, Copy, Default)]
pub struct Kept {
    pub count: usize,
    pub at: [u64; 11],
}

// The numbers kept, and where the scan stopped: no end stands before.
#[derive(Clone, Copy)]
pub struct Scanned {
    pub kept: Kept,
    pub stop: usize,
}
