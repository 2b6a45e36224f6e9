// That the lengths of a pair and the cut to them, in turn, are document 01's pair cut (document 02, request 07): specs/ and
// proofs/. This crate runs nothing.
#![tactic(auto)]
