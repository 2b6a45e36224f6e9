// That the windows of a cut, put together, are the rows that were cut (document 02, requests 04 and 10): specs/ and
// proofs/. This crate runs nothing.
#![tactic(auto)]
