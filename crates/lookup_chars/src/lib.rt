// The row of a character, and the word of a character (document 01, module 1): lookups of the Rust's encoding. Each reads the
// top node of a batch of one encoding; any other batch is refused with 1, and nothing is a normal answer.
#![tactic(auto)]

ghost use Rattle.std.specs.Prelude.{true, ◌≡◌};
ghost use Rattle.lookup_chars.specs.Answers.{word_answer, char_to_token_answer, char_to_word_answer};
ghost use Rattle.lookup_chars.specs.Chars.{char_to_token, char_to_word};
ghost use Rattle.lookup_search.specs.Answers.{token_answer};
ghost use Rattle.lookup_search.specs.Promises.{OfOne};
ghost use Rattle.record.specs.Read.{read, is_one};

use record::{Place, Refusal, Row, Word};

// The row of a sequence that holds a character. Refusal: 1.
pub fn char_to_token(
    nodes: &[u32],
    rows: &[u32],
    place: Place,
    sequence_id: u32,
) -> Result<Option<Row>, Refusal>
    ensures { result ≡ char_to_token_answer (read nodes.now rows.now) place.0 sequence_id }
{
    if !record_check::is_one(nodes, rows) {
        return Err(Refusal::MalformedRecord);
    }
    Ok(token_of_char(nodes, rows, place, sequence_id))
}

// The word of a sequence that holds a character. Refusal: 1.
pub fn char_to_word(
    nodes: &[u32],
    rows: &[u32],
    place: Place,
    sequence_id: u32,
) -> Result<Option<Word>, Refusal>
    ensures { result ≡ char_to_word_answer (read nodes.now rows.now) place.0 sequence_id }
{
    if !record_check::is_one(nodes, rows) {
        return Err(Refusal::MalformedRecord);
    }
    Ok(word_of_char(nodes, rows, place, sequence_id))
}

// ---- The same, where the record is known to be one encoding

fn token_of_char(nodes: &[u32], rows: &[u32], place: Place, sequence_id: u32) -> Option<Row>
    requires { is_one (read nodes.now rows.now) ≡ true }
    ensures { OfOne nodes.now rows.now
        (λ E. result ≡ token_answer (char_to_token E place.0 sequence_id)) }
{
    let bounds = lookup_ranges::range_of(nodes, sequence_id);
    lookup_search::first_holding(rows, bounds.start, bounds.end, place.0)
}

fn word_of_char(nodes: &[u32], rows: &[u32], place: Place, sequence_id: u32) -> Option<Word>
    requires { is_one (read nodes.now rows.now) ≡ true }
    ensures { OfOne nodes.now rows.now
        (λ E. result ≡ word_answer (char_to_word E place.0 sequence_id)) }
{
    let token = token_of_char(nodes, rows, place, sequence_id)?;
    let found = lookup_tokens::word_of_token(nodes, rows, token)?;
    Some(found.word)
}
