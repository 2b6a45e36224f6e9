// The first break of the profile in a well-formed batch, node by node in one walk (document 02, request 08).
#![tactic(auto)]

ghost use Rattle.std.specs.Prelude.{◌≡◌};
ghost use Rattle.profile_nodes.specs.Promises.{FirstFound, left_after};
ghost use Rattle.record.specs.WellFormed.{Batch};

use profile_trees::Break;
use record::Encoding;

// The first break, rule by rule and then depth first. A window that has windows ends the walk: nothing goes before the first rule; so until
// then the windows of an encoding at the top follow it one by one.
pub fn first_break(nodes: &[u32], rows: &[u32]) -> Break
    requires { Batch nodes.now rows.now }
    ensures { FirstFound nodes.now rows.now result }
{
    let mut best = Break::none();
    let mut left: u32 = 0;
    let mut j: usize = 0;
    for n in 0..nodes.len() / Encoding::NODE_WIDTH {
        let node = n as u32;
        let i = n * Encoding::NODE_WIDTH;
        let windows = nodes[i + 1];
        if left > 0 {
            if windows > 0 {
                return Break {
                    rule: 1,
                    node,
                    row: 0,
                };
            }
        }
        best = profile_node::check_node(nodes, i, rows, j, node, best);
        left = left_after(left, windows);
        j += nodes[i] as usize * Encoding::ROW_WIDTH;
    }
    best
}

// How many windows are still to come of the encoding at the top, after a node with so many windows.
fn left_after(left: u32, windows: u32) -> u32
    ensures { result ≡ left_after left windows }
{
    if left == 0 { windows } else { left - 1 }
}
