// The second of two calls of `merge_with`, on what the first left in a store, unless that was refused. `join_three` makes the first.
#![tactic(auto)]

ghost use Rattle.join_next.specs.Promises.{StoreHolds, ThenLeft, ThenRight};

use record::{Encoding, Refusal, Written};

// What the first call left with C. Answers with the refusal of the first call, if it was refused.
pub fn then_left(
    first: Result<Written, Refusal>,
    ab_nodes: &[u32],
    ab_rows: &[u32],
    c_nodes: &[u32],
    c_rows: &[u32],
    growing: bool,
    out_nodes: &mut [u32],
    out_rows: &mut [u32],
) -> Result<Written, Refusal>
    requires { StoreHolds first ab_nodes.now ab_rows.now }
    ensures { ThenLeft growing first ab_nodes.now ab_rows.now c_nodes.now
        c_rows.now out_nodes.old out_rows.old out_nodes.new
        out_rows.new result }
{
    let Written { nodes, rows } = first?;
    let node_end = nodes * Encoding::NODE_WIDTH;
    let row_end = rows * Encoding::ROW_WIDTH;
    join::merge_with(
        &ab_nodes[..node_end],
        &ab_rows[..row_end],
        c_nodes,
        c_rows,
        growing,
        out_nodes,
        out_rows,
    )
}

// A with what the first call left. Answers with the refusal of the first call, if it was refused.
pub fn then_right(
    first: Result<Written, Refusal>,
    a_nodes: &[u32],
    a_rows: &[u32],
    bc_nodes: &[u32],
    bc_rows: &[u32],
    growing: bool,
    out_nodes: &mut [u32],
    out_rows: &mut [u32],
) -> Result<Written, Refusal>
    requires { StoreHolds first bc_nodes.now bc_rows.now }
    ensures { ThenRight growing first a_nodes.now a_rows.now bc_nodes.now
        bc_rows.now out_nodes.old out_rows.old out_nodes.new
        out_rows.new result }
{
    let Written { nodes, rows } = first?;
    let node_end = nodes * Encoding::NODE_WIDTH;
    let row_end = rows * Encoding::ROW_WIDTH;
    join::merge_with(
        a_nodes,
        a_rows,
        &bc_nodes[..node_end],
        &bc_rows[..row_end],
        growing,
        out_nodes,
        out_rows,
    )
}
