// The C interface of the lookups between characters and rows. Each function returns the number of its refusal, 0 for none,
// and gives its values through lent numbers, which a refusal leaves as they were. include/noddrefyr.h is made from this file
// too.
#![tactic(auto)]

ghost use Rattle.c_chars.specs.Answers.{token_crossed, token_chars_crossed};
ghost use Rattle.c_crossing.specs.Crossing.{Crosses};
ghost use Rattle.lookup_chars.specs.Answers.{char_to_token_answer};
ghost use Rattle.lookup_tokens.specs.Answers.{token_to_chars_answer};
ghost use Rattle.record.specs.Read.{read};

use record::{Place, Row};

// The row that holds a character, in a sequence of one encoding: found or not, row. Refused with 1.
#[unsafe(no_mangle)]
pub extern "C" fn noddrefyr_char_to_token(
    nodes: &[u32],
    rows: &[u32],
    place: u32,
    sequence_id: u32,
    answer: &mut [u32; 2],
) -> u32
    ensures { Crosses
        (token_crossed answer.old
        (char_to_token_answer (read nodes.now rows.now) place sequence_id))
        result answer.new }
{
    let told = match lookup_chars::char_to_token(nodes, rows, Place(place), sequence_id) {
        Ok(Some(found)) => Ok([1, found.0]),
        Ok(None) => Ok([0; 2]),
        Err(why) => Err(why),
    };
    c_crossing::cross(told, answer)
}

// The sequence of a row of one encoding, the row's place from the start of it, and the row's characters: found or not, sequence,
// place, start, end. Refused with 1.
#[unsafe(no_mangle)]
pub extern "C" fn noddrefyr_token_to_chars(
    nodes: &[u32],
    rows: &[u32],
    token: u32,
    answer: &mut [u32; 5],
) -> u32
    ensures { Crosses
        (token_chars_crossed answer.old
        (token_to_chars_answer (read nodes.now rows.now) token))
        result answer.new }
{
    let told = match lookup_tokens::token_to_chars(nodes, rows, Row(token)) {
        Ok(Some(found)) => Ok([1, found.sequence, found.place.0, found.start.0, found.end.0]),
        Ok(None) => Ok([0; 5]),
        Err(why) => Err(why),
    };
    c_crossing::cross(told, answer)
}
