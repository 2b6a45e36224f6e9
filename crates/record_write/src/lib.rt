// Numbers of a record, written where they belong: a row, a range, the rows of tokens.
#![tactic(auto)]

ghost use mathlib.Core.List.{flat_map};
ghost use Rattle.std.specs.Prelude.{◌≡◌, ◌+◌, ◌*◌, ◌≤◌, length, drop};
ghost use Rattle.std.proofs.lemmas.List.Edits.{sets};
ghost use Rattle.record.specs.Flat.{row_width, row_numbers, range_numbers};
ghost use Rattle.record.specs.Read.{several};
ghost use Rattle.record_write.specs.Tokens.{token_width, token_row};
ghost use Rattle.record_write.specs.Writing.{row_of, present_range};

use record::Encoding;

// The numbers of a row that is to be written.
#[derive(Clone, Copy)]
pub struct NewRow {
    pub id: u32,
    pub type_id: u32,
    pub pool: u32,
    pub text_start: u32,
    pub text_length: u32,
    pub word_mark: u32,
    pub word: u32,
    pub offset_start: u32,
    pub offset_end: u32,
    pub special: u32,
    pub attention: u32,
}

// The numbers of a row, from `at` on: made as a block and copied in one call.
pub fn write_row(out: &mut [u32], at: usize, row: NewRow)
    requires { at + row_width ≤ length out.old }
    ensures { out.new ≡ sets out.old at (row_numbers (row_of row)) }
{
    let numbers = numbers_of(row);
    lists::copy(&numbers, 0, Encoding::ROW_WIDTH, out, at);
}

// The numbers of a row, in the order of `Column`.
fn numbers_of(row: NewRow) -> [u32; Encoding::ROW_WIDTH]
    ensures { result ≡ row_numbers (row_of row) }
{
    [
        row.id,
        row.type_id,
        row.pool,
        row.text_start,
        row.text_length,
        row.word_mark,
        row.word,
        row.offset_start,
        row.offset_end,
        row.special,
        row.attention,
    ]
}

// A present range, into the place of a range that begins at `at`.
pub fn write_range(out: &mut [u32], at: usize, start: u32, end: u32)
    requires { at + 3 ≤ length out.old }
    ensures { out.new ≡ sets out.old at (range_numbers (present_range start end)) }
{
    out[at] = 1;
    out[at + 1] = start;
    out[at + 2] = end;
}

// The place of each number in a token.
#[derive(Clone, Copy)]
pub struct Token {}

impl Token {
    pub const WIDTH: usize = 5;

    pub const ID: usize = 0;

    pub const TEXT_START: usize = 1;

    pub const TEXT_LENGTH: usize = 2;

    pub const OFFSET_START: usize = 3;

    pub const OFFSET_END: usize = 4;
}

// The rows of the first `count` tokens, from the front of out_rows on.
pub fn write_tokens(tokens: &[u32], type_id: u32, count: usize, out_rows: &mut [u32])
    requires { (count * token_width ≤ length tokens.now) × (count * row_width ≤ length out_rows.old) }
    ensures { out_rows.new ≡ sets out_rows.old 0
        (flat_map row_numbers (several (token_row type_id) token_width count tokens.now)) }
{
    for i in 0..count {
        let row = token_row(tokens, i * Token::WIDTH, type_id);
        write_row(out_rows, i * Encoding::ROW_WIDTH, row);
    }
}

// The row of the token whose numbers begin at `from`.
fn token_row(tokens: &[u32], from: usize, type_id: u32) -> NewRow
    requires { from + token_width ≤ length tokens.now }
    ensures { row_of result ≡ token_row type_id (drop from tokens.now) }
{
    NewRow {
        id: tokens[from + Token::ID],
        type_id,
        pool: 0,
        text_start: tokens[from + Token::TEXT_START],
        text_length: tokens[from + Token::TEXT_LENGTH],
        word_mark: 0,
        word: 0,
        offset_start: tokens[from + Token::OFFSET_START],
        offset_end: tokens[from + Token::OFFSET_END],
        special: 0,
        attention: 1,
    }
}
