//! No code: what 01 says of a board in words. Histories and demand 3 (specs/Histories.antt), and the laws of a board's answers (proofs/).
#![tactic(auto)]
