// The rules on rows, looked for row by row in one pass over a stretch of them (document 02, request 08).
#![tactic(auto)]

ghost use Rattle.std.specs.Prelude.{◌+◌, ◌*◌, ◌≤◌, length};
ghost use Rattle.profile_rows.specs.Promises.{Checked};
ghost use Rattle.profile_trees.specs.Promises.{no_rule};
ghost use Rattle.record.specs.Flat.{row_width};

use profile_trees::Break;
use record::{Bounds, Column, Encoding};

// The first break of the rows of a stretch, or what was found before unless it goes after that. The node's rows begin at `first`;
// its words are looked at, from the start of the stretch on, only where that is asked.
pub fn check_rows(
    rows: &[u32],
    first: usize,
    stretch: Bounds,
    words: bool,
    node: u32,
    best: Break,
) -> Break
    requires { (stretch.start ≤ stretch.end) × (first + stretch.end * row_width ≤ length rows.now) × (best.rule ≤ no_rule) }
    ensures { Checked rows.now first stretch words node best result }
{
    let mut found = best;
    let mut last: u32 = 0;
    for row in stretch.start..stretch.end {
        let at = first + row as usize * Encoding::ROW_WIDTH;
        if profile_quick::row_wrong(rows, at, words, last) {
            let rule = profile_row::row_rule(rows, at, words, last);
            if rule < found.rule {
                found = Break { rule, node, row };
            }
        }
        last = profile_row::word_after(rows[at + Column::WORD_MARK], rows[at + Column::WORD], last);
    }
    found
}
