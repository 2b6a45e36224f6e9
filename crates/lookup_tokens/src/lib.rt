// The characters and the word of a row, with its sequence and its place there (document 01, module 1; document 02, request
// 06): lookups of the Rust's encoding. Each reads the top node of a batch of one encoding; any other batch is refused with
// 1, and nothing is a normal answer.
#![tactic(auto)]

ghost use Rattle.std.specs.Prelude.{true, ◌≡◌};
ghost use Rattle.lookup_search.specs.Promises.{OfOne};
ghost use Rattle.lookup_tokens.specs.Answers.{token_chars_answer, token_word_answer, token_to_chars_answer, token_to_word_answer};
ghost use Rattle.lookup_tokens.specs.Tokens.{token_to_chars, token_to_word};
ghost use Rattle.record.specs.Read.{read, is_one};

use lookup_holding::Sequence;
use record::{Column, Encoding, Place, Refusal, Row, SequencePlace, Word};

// The characters of a row, its sequence and its place in that.
#[derive(Clone, Copy)]
pub struct TokenChars {
    pub sequence: u32,
    pub place: SequencePlace,
    pub start: Place,
    pub end: Place,
}

// The word of a row, its sequence and its place in that.
#[derive(Clone, Copy)]
pub struct TokenWord {
    pub sequence: u32,
    pub place: SequencePlace,
    pub word: Word,
}

// The sequence of a row, the row's place in it, and the row's characters. Refusal: 1.
pub fn token_to_chars(
    nodes: &[u32],
    rows: &[u32],
    token: Row,
) -> Result<Option<TokenChars>, Refusal>
    ensures { result ≡ token_to_chars_answer (read nodes.now rows.now) token.0 }
{
    if !record_check::is_one(nodes, rows) {
        return Err(Refusal::MalformedRecord);
    }
    Ok(chars_of_token(nodes, rows, token))
}

// The sequence of a row, the row's place in it, and the row's word. Refusal: 1.
pub fn token_to_word(nodes: &[u32], rows: &[u32], token: Row) -> Result<Option<TokenWord>, Refusal>
    ensures { result ≡ token_to_word_answer (read nodes.now rows.now) token.0 }
{
    if !record_check::is_one(nodes, rows) {
        return Err(Refusal::MalformedRecord);
    }
    Ok(word_of_token(nodes, rows, token))
}

// ---- The same, where the record is known to be one encoding

fn chars_of_token(nodes: &[u32], rows: &[u32], token: Row) -> Option<TokenChars>
    requires { is_one (read nodes.now rows.now) ≡ true }
    ensures { OfOne nodes.now rows.now (λ E. result ≡ token_chars_answer (token_to_chars E token.0)) }
{
    let row = token.0;
    if row >= nodes[0] {
        return None;
    }
    let Sequence { sequence, place } = lookup_holding::sequence_of(nodes, row)?;
    let at = (row as usize) * Encoding::ROW_WIDTH;
    let start = rows[at + Column::OFFSET_START];
    let end = rows[at + Column::OFFSET_END];
    Some(TokenChars {
        sequence,
        place,
        start: Place(start),
        end: Place(end),
    })
}

// The word of a row, for the lookup from character to word too.
pub fn word_of_token(nodes: &[u32], rows: &[u32], token: Row) -> Option<TokenWord>
    requires { is_one (read nodes.now rows.now) ≡ true }
    ensures { OfOne nodes.now rows.now (λ E. result ≡ token_word_answer (token_to_word E token.0)) }
{
    let row = token.0;
    if row >= nodes[0] {
        return None;
    }
    let at = (row as usize) * Encoding::ROW_WIDTH;
    if rows[at + Column::WORD_MARK] != 1 {
        return None;
    }
    let Sequence { sequence, place } = lookup_holding::sequence_of(nodes, row)?;
    let word = rows[at + Column::WORD];
    Some(TokenWord {
        sequence,
        place,
        word: Word(word),
    })
}
