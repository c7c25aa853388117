// The device kept in 100 lent bytes, read, judged and written; and what a call leaves in lent places.
#![tactic(auto)]

pub mod changing;
pub mod handing;
pub mod state;
