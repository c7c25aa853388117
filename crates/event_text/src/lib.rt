// Event text, printed.
#![tactic(auto)]

mod fields;
pub mod printing;
