// The starred samples of document 01 are theorems about the definitions, in specs/ and proofs/. This crate runs nothing.
#![tactic(auto)]
