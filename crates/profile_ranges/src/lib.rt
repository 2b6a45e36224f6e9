// How far the rows of a node from a row on lie in the same range (document 02, request 08, the sixth rule).
#![tactic(auto)]

ghost use Rattle.std.specs.Prelude.{ℕ, ◌+◌, ◌≤◌, ◌<◌, length, get_or};
ghost use Rattle.profile_ranges.specs.Promises.{RowStretched};
ghost use Rattle.record.specs.Flat.{node_width};
ghost use Rattle.record.specs.Passing.{ranges_at};
ghost use Rattle.record.specs.Tree.{absent};

use record::Encoding;

// Rows up to, not including, end that lie in one range or in none, and whether words are looked at there.
#[derive(Clone, Copy)]
pub struct RowStretch {
    pub end: u32,
    pub words: bool,
}

// The stretch from a row of the node at i on: to the end of a range that holds the row; where none does, to the next start of one, and
// words are not looked at; all rows if there are no ranges. Marks are 0 or 1, as in every node that passed the check.
pub fn stretch_at(nodes: &[u32], i: usize, row: u32) -> RowStretch
    requires { (i + node_width ≤ length nodes.now) × (row < get_or nodes.now i 0)
        × ((id : ℕ) → (get_or (ranges_at nodes.now i) id absent).present ≤ 1) }
    ensures { RowStretched (ranges_at nodes.now i) (get_or nodes.now i 0) row result }
{
    let mut end = nodes[i];
    let mut words = true;
    for k in 0..Encoding::SEQUENCES {
        let at = i + Encoding::RANGES + k * Encoding::RANGE_WIDTH;
        if nodes[at] == 1 {
            words = false;
            let start = nodes[at + 1];
            if start <= row {
                if row < nodes[at + 2] {
                    return RowStretch {
                        end: nodes[at + 2],
                        words: true,
                    };
                }
            } else if start < end {
                end = start;
            }
        }
    }
    RowStretch { end, words }
}
