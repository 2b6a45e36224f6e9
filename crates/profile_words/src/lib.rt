// That looking up a word in a record that passes the profile finds every row that carries it (document 02, request 08): specs/
// and proofs/. This crate runs nothing.
#![tactic(auto)]
