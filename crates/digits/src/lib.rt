// Digits: read from a text, written into a lent buffer, and gathered in a line of its own.
#![tactic(auto)]

pub mod line;
pub mod reading;
pub mod writing;

pub use line::Line;
