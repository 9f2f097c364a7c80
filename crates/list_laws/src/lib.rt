//! Laws of lists that the standard library lacks, stated once for all crates. There is no code here: `proofs/` has the
//! lemmas.
#![tactic(auto)]
