// The C interface of the lookups of words. Each function returns the number of its refusal, 0 for none, and gives its values
// through lent numbers, which a refusal leaves as they were. include/noddrefyr.h is made from this file too.
#![tactic(auto)]

ghost use Rattle.c_crossing.specs.Crossing.{Crosses};
ghost use Rattle.c_words.specs.Answers.{tokens_crossed, chars_crossed, token_word_crossed, word_crossed};
ghost use Rattle.lookup_chars.specs.Answers.{char_to_word_answer};
ghost use Rattle.lookup_tokens.specs.Answers.{token_to_word_answer};
ghost use Rattle.lookup_words.specs.Answers.{word_to_tokens_answer, word_to_chars_answer};
ghost use Rattle.record.specs.Read.{read};

use record::{Place, Row, Word};

// The rows of a word in a sequence of one encoding: found or not, start, end (not included). Refused with 1.
#[unsafe(no_mangle)]
pub extern "C" fn noddrefyr_word_to_tokens(
    nodes: &[u32],
    rows: &[u32],
    word: u32,
    sequence_id: u32,
    answer: &mut [u32; 3],
) -> u32
    ensures { Crosses
        (tokens_crossed answer.old
        (word_to_tokens_answer (read nodes.now rows.now) word sequence_id))
        result answer.new }
{
    let told = match lookup_words::word_to_tokens(nodes, rows, Word(word), sequence_id) {
        Ok(Some(found)) => Ok([1, found.start.0, found.end.0]),
        Ok(None) => Ok([0; 3]),
        Err(why) => Err(why),
    };
    c_crossing::cross(told, answer)
}

// The characters of a word in a sequence of one encoding: found or not, start, end. Refused with 1.
#[unsafe(no_mangle)]
pub extern "C" fn noddrefyr_word_to_chars(
    nodes: &[u32],
    rows: &[u32],
    word: u32,
    sequence_id: u32,
    answer: &mut [u32; 3],
) -> u32
    ensures { Crosses
        (chars_crossed answer.old
        (word_to_chars_answer (read nodes.now rows.now) word sequence_id))
        result answer.new }
{
    let told = match lookup_words::word_to_chars(nodes, rows, Word(word), sequence_id) {
        Ok(Some(found)) => Ok([1, found.start.0, found.end.0]),
        Ok(None) => Ok([0; 3]),
        Err(why) => Err(why),
    };
    c_crossing::cross(told, answer)
}

// The sequence of a row of one encoding, the row's place from the start of it, and the row's word: found or not, sequence, place,
// word. Refused with 1.
#[unsafe(no_mangle)]
pub extern "C" fn noddrefyr_token_to_word(
    nodes: &[u32],
    rows: &[u32],
    token: u32,
    answer: &mut [u32; 4],
) -> u32
    ensures { Crosses
        (token_word_crossed answer.old
        (token_to_word_answer (read nodes.now rows.now) token))
        result answer.new }
{
    let told = match lookup_tokens::token_to_word(nodes, rows, Row(token)) {
        Ok(Some(found)) => Ok([1, found.sequence, found.place.0, found.word.0]),
        Ok(None) => Ok([0; 4]),
        Err(why) => Err(why),
    };
    c_crossing::cross(told, answer)
}

// The word that holds a character, in a sequence of one encoding: found or not, word. Refused with 1.
#[unsafe(no_mangle)]
pub extern "C" fn noddrefyr_char_to_word(
    nodes: &[u32],
    rows: &[u32],
    place: u32,
    sequence_id: u32,
    answer: &mut [u32; 2],
) -> u32
    ensures { Crosses
        (word_crossed answer.old
        (char_to_word_answer (read nodes.now rows.now) place sequence_id))
        result answer.new }
{
    let told = match lookup_chars::char_to_word(nodes, rows, Place(place), sequence_id) {
        Ok(Some(found)) => Ok([1, found.0]),
        Ok(None) => Ok([0; 2]),
        Err(why) => Err(why),
    };
    c_crossing::cross(told, answer)
}
