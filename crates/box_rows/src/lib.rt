//! No code: the rows of every accepted route are those of its segments' boxes, as 01 had them before 02's K8 (specs/Words.antt, proofs/).
#![tactic(auto)]
