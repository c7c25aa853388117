// The recorder as its users think of it: lists of events and messages (specs/), and what is promised of it (proofs/).
#![tactic(auto)]
