// The rules on rows, looked for in one row, and the last word after it (document 02, request 08).
#![tactic(auto)]

ghost use Rattle.std.specs.Prelude.{◌≡◌, ◌+◌, ◌≤◌, length, drop};
ghost use Rattle.profile_row.specs.Promises.{lowest_rule, word_after};
ghost use Rattle.record.specs.Flat.{row_width, row_at};

use profile_trees::Break;
use record::Column;

// The lowest rule on rows that the row at a place breaks, where the last word before it is this, or 0.
pub fn row_rule(rows: &[u32], at: usize, words: bool, last: u32) -> u32
    requires { at + row_width ≤ length rows.now }
    ensures { result ≡ lowest_rule words last (row_at (drop at rows.now)) }
{
    let special = rows[at + Column::SPECIAL];
    let attention = rows[at + Column::ATTENTION];
    if special > 1 {
        return 2;
    }
    if attention > 1 {
        return 2;
    }
    if attention == 0 {
        if special != 1 {
            return 3;
        }
    }
    if rows[at + Column::OFFSET_START] > rows[at + Column::OFFSET_END] {
        return 4;
    }
    if words {
        if rows[at + Column::WORD_MARK] == 1 {
            if rows[at + Column::WORD] < last {
                return 6;
            }
        }
    }
    Break::NO_RULE
}

// The last word, after a row with this mark and word.
pub fn word_after(mark: u32, word: u32, last: u32) -> u32
    ensures { result ≡ word_after mark word last }
{
    if mark == 1 { word } else { last }
}
