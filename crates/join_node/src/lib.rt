// One node of a join: the node and the rows that joining two encodings writes before their windows (document 01, module 5).
#![tactic(auto)]

ghost use Rattle.join_node.specs.Promises.{AskNode, WritesNode};

use join_view::View;
use record::{Encoding, Spot};

// The node of the join of the encodings at s and at p, and its rows, from `at` on.
pub fn write_node(
    s_nodes: &[u32],
    s_rows: &[u32],
    s: Spot,
    p_nodes: &[u32],
    p_rows: &[u32],
    p: Spot,
    view: View,
    growing: bool,
    out_nodes: &mut [u32],
    out_rows: &mut [u32],
    at: Spot,
) -> Spot
    requires { AskNode s_nodes.now s_rows.now s p_nodes.now p_rows.now p view growing
        out_nodes.old out_rows.old at }
    ensures { WritesNode s_nodes.now s_rows.now s p_nodes.now
        p_rows.now p view growing out_nodes.old out_rows.old at result
        out_nodes.new out_rows.new }
{
    let i = s.node;
    let k = p.node;
    let node = at.node;
    let row = at.row;
    let count = s_nodes[i] as usize;
    let p_count = p_nodes[k] as usize;
    join_numbers::write_numbers(s_nodes, i, p_nodes, k, view, out_nodes, node);
    join_rows::write_own_rows(
        s_rows, s.row, count, p_rows, p.row, p_count, view, growing, out_rows, row,
    );
    Spot {
        node: node + Encoding::NODE_WIDTH,
        row: row + (count + p_count) * Encoding::ROW_WIDTH,
    }
}
