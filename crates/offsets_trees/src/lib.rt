// Offsets in bytes and in characters of a text (document 02, request 01): what converting them is, on trees (specs/), and that
// converting there and back gives the batch (proofs/RoundTrips).
#![tactic(auto)]

// Which way offsets are converted.
#[derive(Clone, Copy)]
pub enum Way {
    ToCharacters,
    ToBytes,
}

// What can be wrong with an offset, and so with the first row of a batch that has a wrong one.
#[derive(Clone, Copy)]
pub enum Fault {
    PastEnd,
    InsideCharacter,
}
