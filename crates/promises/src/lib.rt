// What holds of every call and of every sequence of calls: definitions in specs/, theorems in proofs/; no code.
#![tactic(auto)]
