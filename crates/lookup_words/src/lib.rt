// The rows and the characters of a word (document 01, module 1): lookups of the Rust's encoding. Each reads the top node
// of a batch of one encoding; any other batch is refused with 1, and nothing is a normal answer.
#![tactic(auto)]

ghost use Rattle.std.specs.Prelude.{true, ◌≡◌, ◌+◌, ◌*◌, ◌≤◌, length, get_or};
ghost use Rattle.lookup_search.specs.Answers.{tokens_answer};
ghost use Rattle.lookup_search.specs.Promises.{OfOne, at_offset_start, at_offset_end};
ghost use Rattle.lookup_words.specs.Answers.{chars_from_to, chars_answer, word_to_tokens_answer, word_to_chars_answer};
ghost use Rattle.lookup_words.specs.Words.{word_to_tokens, word_to_chars};
ghost use Rattle.record.specs.Flat.{row_width};
ghost use Rattle.record.specs.Read.{read, is_one};

use lookup_ranges::Rows;
use record::{Column, Encoding, Place, Refusal, Word};

// The characters of a word: from start up to, not including, end.
#[derive(Clone, Copy)]
pub struct Chars {
    pub start: Place,
    pub end: Place,
}

// The rows of a word in a sequence. Refusal: 1.
pub fn word_to_tokens(
    nodes: &[u32],
    rows: &[u32],
    word: Word,
    sequence_id: u32,
) -> Result<Option<Rows>, Refusal>
    ensures { result ≡ word_to_tokens_answer (read nodes.now rows.now) word.0 sequence_id }
{
    if !record_check::is_one(nodes, rows) {
        return Err(Refusal::MalformedRecord);
    }
    Ok(tokens_of_word(nodes, rows, word, sequence_id))
}

// The characters of a word in a sequence. Refusal: 1.
pub fn word_to_chars(
    nodes: &[u32],
    rows: &[u32],
    word: Word,
    sequence_id: u32,
) -> Result<Option<Chars>, Refusal>
    ensures { result ≡ word_to_chars_answer (read nodes.now rows.now) word.0 sequence_id }
{
    if !record_check::is_one(nodes, rows) {
        return Err(Refusal::MalformedRecord);
    }
    Ok(chars_of_word(nodes, rows, word, sequence_id))
}

// ---- The same, where the record is known to be one encoding

pub fn tokens_of_word(nodes: &[u32], rows: &[u32], word: Word, sequence_id: u32) -> Option<Rows>
    requires { is_one (read nodes.now rows.now) ≡ true }
    ensures { OfOne nodes.now rows.now
        (λ E. result ≡ tokens_answer (word_to_tokens E word.0 sequence_id)) }
{
    let bounds = lookup_ranges::range_of(nodes, sequence_id);
    lookup_search::rows_of_word(rows, bounds.start, bounds.end, word.0)
}

pub fn chars_of_word(nodes: &[u32], rows: &[u32], word: Word, sequence_id: u32) -> Option<Chars>
    requires { is_one (read nodes.now rows.now) ≡ true }
    ensures { OfOne nodes.now rows.now
        (λ E. result ≡ chars_answer (word_to_chars E word.0 sequence_id)) }
{
    let Rows { start, end } = tokens_of_word(nodes, rows, word, sequence_id)?;
    Some(offsets_of(rows, start.0, end.0 - 1))
}

// ---- Parts of these

// From the start of row first to the end of row last.
pub fn offsets_of(rows: &[u32], first: u32, last: u32) -> Chars
    requires { (first * row_width + row_width ≤ length rows.now) × (last * row_width + row_width ≤ length rows.now) }
    ensures { result ≡ chars_from_to
        (get_or rows.now (first * row_width + at_offset_start) 0)
        (get_or rows.now (last * row_width + at_offset_end) 0) }
{
    let from = (first as usize) * Encoding::ROW_WIDTH;
    let to = (last as usize) * Encoding::ROW_WIDTH;
    Chars {
        start: Place(rows[from + Column::OFFSET_START]),
        end: Place(rows[to + Column::OFFSET_END]),
    }
}
