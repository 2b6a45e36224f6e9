// Whether a row breaks a rule on rows at all, told quickly (document 02, request 08): which one, `profile_row` says.
#![tactic(auto)]

ghost use Rattle.std.specs.Prelude.{false, ◌≡◌, ◌+◌, ◌≤◌, length, drop};
ghost use Rattle.profile_quick.specs.Promises.{quick_rule};
ghost use Rattle.profile_row.specs.Promises.{lowest_rule};
ghost use Rattle.profile_trees.specs.Promises.{no_rule};
ghost use Rattle.record.specs.Flat.{row_width, row_at};

use record::Column;

// Whether the row at a place breaks a rule on rows: no only if it breaks none, and yes only where one of the four tests says so. Tests
// joined by | and &, which make no branches: masks and marks change from row to row.
pub fn row_wrong(rows: &[u32], at: usize, words: bool, last: u32) -> bool
    requires { at + row_width ≤ length rows.now }
    ensures told { result ≡ quick_rule words last (row_at (drop at rows.now)) }
    ensures none { result ≡ false → lowest_rule words last (row_at (drop at rows.now)) ≡ no_rule }
{
    let special = rows[at + Column::SPECIAL];
    let attention = rows[at + Column::ATTENTION];
    let masks = (special > 1) | ((attention > 1) | ((attention == 0) & (special == 0)));
    let offsets = rows[at + Column::OFFSET_START] > rows[at + Column::OFFSET_END];
    let below = (rows[at + Column::WORD_MARK] == 1) & (rows[at + Column::WORD] < last);
    masks | offsets | (words & below)
}
