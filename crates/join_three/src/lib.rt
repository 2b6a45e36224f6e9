// Three encodings joined one way, by two calls of `merge_with`: from the left, or from the right. `join_grouping` goes both ways
// (demand 3 of the request). No operation of document 01, so the C interface does not have it.
#![tactic(auto)]

ghost use Rattle.join_three.specs.Ways.{LeftWay, RightWay};

use record::{Refusal, Written};

// A with B, into a store between the calls, and the result with C. Answers with the refusal of the first call that is refused.
pub fn join_left(
    a_nodes: &[u32],
    a_rows: &[u32],
    b_nodes: &[u32],
    b_rows: &[u32],
    c_nodes: &[u32],
    c_rows: &[u32],
    growing: bool,
    ab_nodes: &mut [u32],
    ab_rows: &mut [u32],
    out_nodes: &mut [u32],
    out_rows: &mut [u32],
) -> Result<Written, Refusal>
    ensures { LeftWay growing a_nodes.now a_rows.now b_nodes.now
        b_rows.now c_nodes.now c_rows.now
        ab_nodes.old ab_rows.old out_nodes.old out_rows.old
        ab_nodes.new ab_rows.new out_nodes.new out_rows.new result }
{
    let first = join::merge_with(a_nodes, a_rows, b_nodes, b_rows, growing, ab_nodes, ab_rows);
    join_next::then_left(
        first, ab_nodes, ab_rows, c_nodes, c_rows, growing, out_nodes, out_rows,
    )
}

// B with C, into a store between the calls, and A with the result. Answers with the refusal of the first call that is refused.
pub fn join_right(
    a_nodes: &[u32],
    a_rows: &[u32],
    b_nodes: &[u32],
    b_rows: &[u32],
    c_nodes: &[u32],
    c_rows: &[u32],
    growing: bool,
    bc_nodes: &mut [u32],
    bc_rows: &mut [u32],
    out_nodes: &mut [u32],
    out_rows: &mut [u32],
) -> Result<Written, Refusal>
    ensures { RightWay growing a_nodes.now a_rows.now b_nodes.now
        b_rows.now c_nodes.now c_rows.now
        bc_nodes.old bc_rows.old out_nodes.old out_rows.old
        bc_nodes.new bc_rows.new out_nodes.new out_rows.new result }
{
    let first = join::merge_with(b_nodes, b_rows, c_nodes, c_rows, growing, bc_nodes, bc_rows);
    join_next::then_right(
        first, a_nodes, a_rows, bc_nodes, bc_rows, growing, out_nodes, out_rows,
    )
}
