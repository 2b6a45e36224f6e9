// Demand 3 of the request, run: three encodings joined from the left and from the right by four calls of `merge_with`, and what
// both ways leave. It is a theorem about the code and no operation of document 01, so the C interface does not have it.
#![tactic(auto)]

ghost use Rattle.join_grouping.specs.Grouping.{BothWays};

use record::{Refusal, Written};

// What each way answers.
#[derive(Clone, Copy)]
pub struct Answers {
    pub left: Result<Written, Refusal>,
    pub right: Result<Written, Refusal>,
}

// Both ways: A with B and the result with C; B with C and A with the result. Each way has a store for the result between
// its two calls and an output, and answers with the refusal of its first refused call.
pub fn join_both_ways(
    a_nodes: &[u32],
    a_rows: &[u32],
    b_nodes: &[u32],
    b_rows: &[u32],
    c_nodes: &[u32],
    c_rows: &[u32],
    growing: bool,
    ab_nodes: &mut [u32],
    ab_rows: &mut [u32],
    left_nodes: &mut [u32],
    left_rows: &mut [u32],
    bc_nodes: &mut [u32],
    bc_rows: &mut [u32],
    right_nodes: &mut [u32],
    right_rows: &mut [u32],
) -> Answers
    ensures { BothWays growing a_nodes.now a_rows.now b_nodes.now
        b_rows.now c_nodes.now c_rows.now
        ab_nodes.old ab_rows.old left_nodes.old left_rows.old
        bc_nodes.old bc_rows.old right_nodes.old right_rows.old
        ab_nodes.new ab_rows.new left_nodes.new left_rows.new
        bc_nodes.new bc_rows.new right_nodes.new right_rows.new
        result.left result.right }
{
    let left = join_three::join_left(
        a_nodes, a_rows, b_nodes, b_rows, c_nodes, c_rows, growing, ab_nodes, ab_rows, left_nodes,
        left_rows,
    );
    let right = join_three::join_right(
        a_nodes,
        a_rows,
        b_nodes,
        b_rows,
        c_nodes,
        c_rows,
        growing,
        bc_nodes,
        bc_rows,
        right_nodes,
        right_rows,
    );
    Answers { left, right }
}
