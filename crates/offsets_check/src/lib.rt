// The first row of a batch with an offset that cannot be converted (document 02, request 01: 17 and 18).
#![tactic(auto)]

ghost use Rattle.std.specs.Prelude.{true, ◌≡◌, ◌+◌, ◌*◌, ◌≤◌, length, drop};
ghost use Rattle.record.specs.Flat.{row_width, row_at};
ghost use Rattle.record.specs.Read.{several};
ghost use Rattle.chars_text.specs.Characters.{well_formed};
ghost use Rattle.offsets_trees.specs.Offsets.{byte_fault, fault_by, row_fault, rows_fault};
ghost use Rattle.offsets_check.specs.Promises.{CountedText, number_fault};

use offsets_trees::{Fault, Way};
use record::{Column, Encoding};

// The first fault of so many rows, windows included; in a row the start goes before the end.
pub fn rows_fault(way: Way, text: &[u8], total: usize, rows: &[u32], count: usize) -> Option<Fault>
    requires { CountedText text.now total × (count * row_width ≤ length rows.now) }
    ensures { result ≡ rows_fault (fault_by way text.now) (several row_at row_width count rows.now) }
{
    for i in 0..count {
        let fault = row_fault(way, text, total, rows, i * Encoding::ROW_WIDTH);
        if fault.is_some() {
            return fault;
        }
    }
    None
}

// What is wrong with the row at a place.
fn row_fault(way: Way, text: &[u8], total: usize, rows: &[u32], at: usize) -> Option<Fault>
    requires { CountedText text.now total × (at + row_width ≤ length rows.now) }
    ensures { result ≡ row_fault (fault_by way text.now) (row_at (drop at rows.now)) }
{
    let start = offset_fault(way, text, total, rows[at + Column::OFFSET_START] as usize);
    if start.is_some() {
        return start;
    }
    offset_fault(way, text, total, rows[at + Column::OFFSET_END] as usize)
}

// What is wrong with an offset in a text of so many characters.
fn offset_fault(way: Way, text: &[u8], total: usize, offset: usize) -> Option<Fault>
    requires { CountedText text.now total }
    ensures { result ≡ fault_by way text.now offset }
{
    match way {
        Way::ToCharacters => byte_fault(text, offset),
        Way::ToBytes => char_fault(total, offset),
    }
}

// What is wrong with a byte's place. The end of the text has no byte, and nothing is wrong with it.
fn byte_fault(text: &[u8], offset: usize) -> Option<Fault>
    requires { well_formed text.now ≡ true }
    ensures { result ≡ byte_fault text.now offset }
{
    if text.len() < offset {
        return Some(Fault::PastEnd);
    }
    if offset == text.len() {
        return None;
    }
    if chars_text::is_tail(text[offset]) {
        return Some(Fault::InsideCharacter);
    }
    None
}

// What is wrong with the number of a character among so many.
fn char_fault(total: usize, offset: usize) -> Option<Fault>
    ensures { result ≡ number_fault total offset }
{
    if total < offset {
        return Some(Fault::PastEnd);
    }
    None
}
