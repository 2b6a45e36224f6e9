// The walks over the rows of a sequence: for the rows of a word, and for the row that holds a character. The operations
// that check their input first are in lookup_words and lookup_chars.
#![tactic(auto)]

ghost use Rattle.std.specs.Prelude.{cond, ◌≡◌, ◌*◌, ◌≤◌, eqb, length};
ghost use Rattle.lookup_ranges.specs.First.{first_from, part};
ghost use Rattle.lookup_search.specs.Answers.{tokens_answer, token_answer};
ghost use Rattle.lookup_search.specs.Promises.{OfRows, matched};
ghost use Rattle.lookup_search.specs.Searches.{word_rows, holds_place};
ghost use Rattle.record.specs.Flat.{row_width};

use lookup_ranges::Rows;
use record::{Column, Encoding, Row};

// ---- The walks over the rows

// The first row from start up to, not including, end whose offsets hold the place.
pub fn first_holding(rows: &[u32], start: u32, end: u32, place: u32) -> Option<Row>
    requires { end * row_width ≤ length rows.now }
    ensures { OfRows rows.now end
        (λ l. result ≡ token_answer (first_from (holds_place place) start (part start end l))) }
{
    for i in start..end {
        let at = (i as usize) * Encoding::ROW_WIDTH;
        if rows[at + Column::OFFSET_START] <= place && place < rows[at + Column::OFFSET_END] {
            return Some(Row(i));
        }
    }
    None
}

// The answer for the matches seen so far, of which there are none while after is 0.
pub fn seen(first: u32, after: u32) -> Option<Rows>
    ensures { result ≡ tokens_answer (matched first after) }
{
    if after == 0 {
        None
    } else {
        Some(Rows {
            start: Row(first),
            end: Row(after),
        })
    }
}

// The first match, once row i is one.
pub fn earliest(first: u32, after: u32, i: u32) -> u32
    ensures { result ≡ cond (eqb after 0) i first }
{
    if after == 0 { i } else { first }
}

// The first row of the word from start up to, not including, end, and the row after the last one; rows after the first
// with a word above it are not looked at.
pub fn rows_of_word(rows: &[u32], start: u32, end: u32, word: u32) -> Option<Rows>
    requires { end * row_width ≤ length rows.now }
    ensures { OfRows rows.now end (λ l. result ≡ tokens_answer (word_rows word start (part start end l))) }
{
    // Two numbers, not an Option: `seen` and `earliest`, whose promises stay, speak of them.
    let mut first: u32 = 0;
    let mut after: u32 = 0;
    for i in start..end {
        let at = (i as usize) * Encoding::ROW_WIDTH;
        if rows[at + Column::WORD_MARK] == 1 {
            let found = rows[at + Column::WORD];
            if found > word {
                return seen(first, after);
            }
            if found == word {
                first = earliest(first, after, i);
                after = i + 1;
            }
        }
    }
    seen(first, after)
}
