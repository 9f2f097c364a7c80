//! Lists of bits: their sum place by place, and the sum of the values that a choice takes. There is no code here:
//! `specs/` has the definitions, `proofs/` their laws.
#![tactic(auto)]
