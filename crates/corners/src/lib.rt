//! No code: 01's corners with numbers, as one list of cases (specs/Cases.antt) and one statement over it
//! (proofs/Laws.antt).
#![tactic(auto)]
