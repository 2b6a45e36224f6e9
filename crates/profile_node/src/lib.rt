// The rules of the profile in one node, the first rule left aside (document 02, request 08): by its ranges, and in one pass over its
// rows, stretch by stretch.
#![tactic(auto)]

ghost use Rattle.profile_node.specs.Promises.{NodeThere, SharedFound, RowsFound, NodeFound};

use profile_trees::Break;
use record::Bounds;

// The first break of a node that does not break the first rule, or what was found before unless it goes after that. The node stands at
// i, its rows at `first`.
pub fn check_node(
    nodes: &[u32],
    i: usize,
    rows: &[u32],
    first: usize,
    node: u32,
    best: Break,
) -> Break
    requires { NodeThere nodes.now i rows.now first best }
    ensures { NodeFound nodes.now i rows.now first node best result }
{
    let shared = profile_order::first_in_two(nodes, i);
    let found = with_shared(best, node, shared, nodes[i]);
    check_stretches(nodes, i, rows, first, node, found)
}

// What was found before, or the break of the fifth rule at a row before `count` unless it goes after that.
fn with_shared(best: Break, node: u32, shared: u32, count: u32) -> Break
    ensures { SharedFound node shared count best result }
{
    if shared < count {
        if best.rule > 5 {
            return Break {
                rule: 5,
                node,
                row: shared,
            };
        }
    }
    best
}

// The rules on rows. Where a row lies in two ranges a lower rule than the sixth is broken, and words no longer play a part.
fn check_stretches(
    nodes: &[u32],
    i: usize,
    rows: &[u32],
    first: usize,
    node: u32,
    best: Break,
) -> Break
    requires { NodeThere nodes.now i rows.now first best }
    ensures { RowsFound nodes.now i rows.now first node best result }
{
    let count = nodes[i];
    let mut found = best;
    let mut row: u32 = 0;
    // A while: the step is to the end of a stretch, which the ranges decide.
    while row < count {
        let stretch = profile_ranges::stretch_at(nodes, i, row);
        let end = stretch.end;
        let bounds = Bounds { start: row, end };
        found = profile_rows::check_rows(rows, first, bounds, stretch.words, node, found);
        row = end;
    }
    found
}
