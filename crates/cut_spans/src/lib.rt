// That a cut keeps the span (document 02, request 04): specs/ and proofs/. This crate runs nothing.
#![tactic(auto)]
