// Replays the stored cases of the operation that folds encodings into one, called through the C interface (`replay_program` says
// what a case is, `replay_outputs` what its answers are). The line above its function is its whole case.
#![tactic(auto)]

use replay_answers::Outcome;
use replay_outputs::{BEFORE, BEFORE_COUNT, OUTPUT, WORKING};

// The operation's number, the first number of each case.
const MERGE: u32 = 19;

// Where the answers begin in the rest of a case.
const ANSWERS: usize = 2;

// What stands in each number of a working store before a call.
const LENT: u32 = 7;

fn main(rt: HostRuntime) {
    replay_program::replay_all(&rt, replay);
}

// `rest` is what follows the two lists in the case.
fn replay(operation: u32, nodes: &[u32], rows: &[u32], rest: &[u32]) -> Outcome {
    if operation != MERGE {
        return Outcome::Bad;
    }
    if rest.len() < ANSWERS {
        return Outcome::Bad;
    }
    merge(nodes, rows, rest, &rest[ANSWERS..])
}

// `19 nodes rows growing left refusal nodes rows out-nodes out-rows`: `left` is what each number of the working store is after
// the call
fn merge(nodes: &[u32], rows: &[u32], rest: &[u32], answers: &[u32]) -> Outcome {
    let mut out_nodes = [BEFORE; OUTPUT];
    let mut out_rows = [BEFORE; OUTPUT];
    let mut working_nodes = [LENT; WORKING];
    let mut working_rows = [LENT; WORKING];
    let mut counts = [BEFORE_COUNT; 2];
    let node_numbers = replay_outputs::nodes_lent(answers, &out_nodes);
    let row_numbers = replay_outputs::rows_lent(answers, &out_rows);
    let refusal = c_join::noddrefyr_merge(
        nodes,
        rows,
        replay_cases::number_at(rest, 0) == 1,
        &mut out_nodes[..node_numbers],
        &mut out_rows[..row_numbers],
        &mut working_nodes,
        &mut working_rows,
        &mut counts,
    );
    let left = replay_cases::number_at(rest, 1);
    let answer = replay_outputs::left_as(left, &working_nodes, &working_rows, refusal);
    replay_outputs::answered_whole(answer, &counts, &out_nodes, &out_rows, answers)
}
