// All functions for C, in one archive (include/noddrefyr.h): each calls the function of its name in a crate c_*, where its work is
// done, and states that function's promises again.
#![tactic(auto)]

mod chars_calls;
mod cut_calls;
mod join_calls;
mod lengths_calls;
mod make_calls;
mod offsets_calls;
mod pad_calls;
mod process_calls;
mod profile_calls;
mod report_calls;
mod sequences_calls;
mod templates_calls;
mod texts_calls;
mod validate_calls;
mod words_calls;
