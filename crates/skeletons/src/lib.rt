//! No code: with strokes on both sides of its line, no join from width 2 to 64 begins a skeleton (specs/Treads.antt, proofs/).
#![tactic(auto)]
