// Replays the stored cases of the operations that cut encodings, each called through the C interface (`replay_program`
// says what a case is, `replay_outputs` what its answers are). The line above each function is its whole case.
// To add one: its number, a case of `answers_at`, such a function, an arm of `run`, and its cases, which the comparison with
// the Rust makes.
#![tactic(auto)]

use replay_answers::Outcome;
use replay_outputs::{BEFORE, BEFORE_COUNT, OUTPUT};

// Operation numbers, the first number of each case.
const TRUNCATE: u32 = 16;

const IN_TURN: u32 = 20;

const PAIR_LENGTHS: u32 = 32;

const CUT_PAIR: u32 = 33;

// How many numbers are handed over for the lengths of a pair.
const PAIR: usize = 5;

fn main(rt: HostRuntime) {
    replay_program::replay_all(&rt, replay);
}

// `rest` is what follows the two lists in the case.
fn replay(operation: u32, nodes: &[u32], rows: &[u32], rest: &[u32]) -> Outcome {
    let at = answers_at(operation);
    if rest.len() < at {
        return Outcome::Bad;
    }
    run(operation, nodes, rows, rest, &rest[at..])
}

// Where the answers of an operation begin in the rest of its case: past its end, if it is none of these.
fn answers_at(operation: u32) -> usize {
    match operation {
        TRUNCATE => 3,
        IN_TURN => 4,
        PAIR_LENGTHS => 0,
        CUT_PAIR => 5,
        _ => usize::MAX,
    }
}

// Runs an operation. Each has an output of its own: lending one to all of them would cost the check more.
fn run(operation: u32, nodes: &[u32], rows: &[u32], rest: &[u32], answers: &[u32]) -> Outcome {
    match operation {
        TRUNCATE => truncate(nodes, rows, rest, answers),
        IN_TURN => in_turn(nodes, rows, rest, answers),
        PAIR_LENGTHS => pair_lengths(nodes, rows, answers),
        _ => cut_pair(nodes, rows, rest, answers),
    }
}

// `16 nodes rows max stride left refusal nodes rows out-nodes out-rows`
fn truncate(nodes: &[u32], rows: &[u32], rest: &[u32], answers: &[u32]) -> Outcome {
    let mut out_nodes = [BEFORE; OUTPUT];
    let mut out_rows = [BEFORE; OUTPUT];
    let mut counts = [BEFORE_COUNT; 2];
    let node_numbers = replay_outputs::nodes_lent(answers, &out_nodes);
    let row_numbers = replay_outputs::rows_lent(answers, &out_rows);
    let refusal = c_cut::noddrefyr_truncate(
        nodes,
        rows,
        replay_cases::number_at(rest, 0),
        replay_cases::number_at(rest, 1),
        replay_cases::number_at(rest, 2) == 1,
        &mut out_nodes[..node_numbers],
        &mut out_rows[..row_numbers],
        &mut counts,
    );
    replay_outputs::answered_whole(refusal, &counts, &out_nodes, &out_rows, answers)
}

// `20 nodes rows max-length stride strategy left refusal nodes rows out-nodes out-rows`: the lengths of a pair and the cut to them
fn in_turn(nodes: &[u32], rows: &[u32], rest: &[u32], answers: &[u32]) -> Outcome {
    let mut out_nodes = [BEFORE; OUTPUT];
    let mut out_rows = [BEFORE; OUTPUT];
    let mut counts = [BEFORE_COUNT; 2];
    let node_numbers = replay_outputs::nodes_lent(answers, &out_nodes);
    let row_numbers = replay_outputs::rows_lent(answers, &out_rows);
    let refusal = replay_pair_call::in_turn(
        nodes,
        rows,
        replay_cases::number_at(rest, 0),
        replay_cases::number_at(rest, 1),
        replay_cases::number_at(rest, 2),
        replay_cases::number_at(rest, 3) == 1,
        &mut out_nodes[..node_numbers],
        &mut out_rows[..row_numbers],
        &mut counts,
    );
    replay_outputs::answered_whole(refusal, &counts, &out_nodes, &out_rows, answers)
}

// `32 first-rows-has-second-second-rows-max-length-strategy nothing refusal first-cut first-kept second-cut second-kept`
fn pair_lengths(pair: &[u32], nothing: &[u32], answers: &[u32]) -> Outcome {
    if pair.len() != PAIR {
        return Outcome::Bad;
    }
    if nothing.len() != 0 {
        return Outcome::Bad;
    }
    let mut kept = [BEFORE; 4];
    let refusal = c_lengths::noddrefyr_pair_lengths(
        pair[0],
        pair[1] == 1,
        pair[2],
        pair[3],
        pair[4],
        &mut kept,
    );
    replay_answers::answered(refusal, &kept, answers, 0)
}

// `33 nodes rows first-length has-second-length second-length stride left refusal nodes rows out-nodes out-rows`
fn cut_pair(nodes: &[u32], rows: &[u32], rest: &[u32], answers: &[u32]) -> Outcome {
    let mut out_nodes = [BEFORE; OUTPUT];
    let mut out_rows = [BEFORE; OUTPUT];
    let mut counts = [BEFORE_COUNT; 2];
    let node_numbers = replay_outputs::nodes_lent(answers, &out_nodes);
    let row_numbers = replay_outputs::rows_lent(answers, &out_rows);
    let refusal = c_cut::noddrefyr_cut_pair(
        nodes,
        rows,
        replay_cases::number_at(rest, 0),
        replay_cases::number_at(rest, 1) == 1,
        replay_cases::number_at(rest, 2),
        replay_cases::number_at(rest, 3),
        replay_cases::number_at(rest, 4) == 1,
        &mut out_nodes[..node_numbers],
        &mut out_rows[..row_numbers],
        &mut counts,
    );
    replay_outputs::answered_whole(refusal, &counts, &out_nodes, &out_rows, answers)
}
