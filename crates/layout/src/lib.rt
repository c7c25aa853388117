// The parts of a kept device in lent bytes: each read, judged and written from a place on.
#![tactic(auto)]

pub mod judging;
pub mod parts;
pub mod words;
