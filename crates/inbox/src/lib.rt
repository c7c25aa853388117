// One receive channel: every call on it, over the shared settings, the channel and its table.
// A call is a check, which may refuse it, and an effect.
#![tactic(auto)]

pub mod changing;
mod checks;
pub mod raising;
pub mod reading;
