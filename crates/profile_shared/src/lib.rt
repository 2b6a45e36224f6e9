// The first row of a node that lies in two of its ranges (document 02, request 08, the fifth rule).
#![tactic(auto)]

ghost use Rattle.std.specs.Prelude.{◌≡◌, ◌+◌, ◌≤◌, length, get_or};
ghost use Rattle.profile_shared.specs.Promises.{FirstShared};
ghost use Rattle.profile_trees.specs.Rules.{holders};
ghost use Rattle.record.specs.Flat.{node_width};
ghost use Rattle.record.specs.Passing.{ranges_at};

use record::Encoding;

// The first row that lies in two ranges of the node at i, or its row count. Such a row is the start of one of them.
pub fn first_shared(nodes: &[u32], i: usize) -> u32
    requires { i + node_width ≤ length nodes.now }
    ensures { FirstShared (ranges_at nodes.now i) (get_or nodes.now i 0) result }
{
    let mut first = nodes[i];
    for k in 0..Encoding::SEQUENCES {
        let at = i + Encoding::RANGES + k * Encoding::RANGE_WIDTH;
        if nodes[at] == 1 {
            let start = nodes[at + 1];
            if start < first {
                if count_holding(nodes, i, start) > 1 {
                    first = start;
                }
            }
        }
    }
    first
}

// How many ranges of the node at i hold a row.
fn count_holding(nodes: &[u32], i: usize, row: u32) -> u32
    requires { i + node_width ≤ length nodes.now }
    ensures { result ≡ holders row (ranges_at nodes.now i) }
{
    let mut count: u32 = 0;
    for k in 0..Encoding::SEQUENCES {
        let at = i + Encoding::RANGES + k * Encoding::RANGE_WIDTH;
        if nodes[at] == 1 && nodes[at + 1] <= row && row < nodes[at + 2] {
            count += 1;
        }
    }
    count
}
