// Replays the stored cases of the operations that make encodings or a column, each called through the C interface
// (`replay_program` says what a case is, `replay_outputs` what its answers are). The line above each function is its whole case.
// To add one: its number, a case of `answers_at`, such a function, an arm of `run`, and its cases, which the comparison with
// the Rust makes.
#![tactic(auto)]

use replay_answers::Outcome;
use replay_outputs::{BEFORE, BEFORE_COUNT, OUTPUT};

// Operation numbers, the first number of each case.
const GET_SEQUENCE_IDS: u32 = 5;

const FROM_TOKENS: u32 = 12;

const SET_SEQUENCE_ID: u32 = 13;

fn main(rt: HostRuntime) {
    replay_program::replay_all(&rt, replay);
}

// `rest` is what follows the two lists in the case.
fn replay(operation: u32, nodes: &[u32], rows: &[u32], rest: &[u32]) -> Outcome {
    let at = answers_at(operation);
    if rest.len() < at {
        return Outcome::Bad;
    }
    run(operation, nodes, rows, rest, &rest[at..])
}

// Where the answers of an operation begin in the rest of its case: past its end, if it is none of these.
fn answers_at(operation: u32) -> usize {
    match operation {
        GET_SEQUENCE_IDS => 0,
        FROM_TOKENS => 1,
        SET_SEQUENCE_ID => 1,
        _ => usize::MAX,
    }
}

// Runs an operation. Each has an output of its own: lending one to all of them would cost the check more.
fn run(operation: u32, nodes: &[u32], rows: &[u32], rest: &[u32], answers: &[u32]) -> Outcome {
    match operation {
        GET_SEQUENCE_IDS => get_sequence_ids(nodes, rows, answers),
        FROM_TOKENS => from_tokens(nodes, rest, answers),
        _ => set_sequence_id(nodes, rows, rest, answers),
    }
}

// `5 nodes rows refusal rows 7 column nothing`: there is one output and one count
fn get_sequence_ids(nodes: &[u32], rows: &[u32], answers: &[u32]) -> Outcome {
    let mut column = [BEFORE; OUTPUT];
    let nothing = [BEFORE; OUTPUT];
    let mut count = [BEFORE_COUNT; 1];
    let numbers = replay_outputs::nodes_lent(answers, &column);
    let refusal = c_sequences::noddrefyr_get_sequence_ids(
        nodes,
        rows,
        &mut column[..numbers],
        &mut count,
    );
    let counts = [count[0], BEFORE_COUNT];
    replay_outputs::answered_whole(refusal, &counts, &column, &nothing, answers)
}

// `12 tokens nothing type refusal nodes rows out-nodes out-rows`
fn from_tokens(tokens: &[u32], rest: &[u32], answers: &[u32]) -> Outcome {
    let mut out_nodes = [BEFORE; OUTPUT];
    let mut out_rows = [BEFORE; OUTPUT];
    let mut counts = [BEFORE_COUNT; 2];
    let node_numbers = replay_outputs::nodes_lent(answers, &out_nodes);
    let row_numbers = replay_outputs::rows_lent(answers, &out_rows);
    let refusal = c_make::noddrefyr_from_tokens(
        tokens,
        replay_cases::number_at(rest, 0),
        &mut out_nodes[..node_numbers],
        &mut out_rows[..row_numbers],
        &mut counts,
    );
    replay_outputs::answered_whole(refusal, &counts, &out_nodes, &out_rows, answers)
}

// `13 nodes rows sequence refusal nodes rows out-nodes out-rows`
fn set_sequence_id(nodes: &[u32], rows: &[u32], rest: &[u32], answers: &[u32]) -> Outcome {
    let mut out_nodes = [BEFORE; OUTPUT];
    let mut out_rows = [BEFORE; OUTPUT];
    let mut counts = [BEFORE_COUNT; 2];
    let node_numbers = replay_outputs::nodes_lent(answers, &out_nodes);
    let row_numbers = replay_outputs::rows_lent(answers, &out_rows);
    let refusal = c_make::noddrefyr_set_sequence_id(
        nodes,
        rows,
        replay_cases::number_at(rest, 0),
        &mut out_nodes[..node_numbers],
        &mut out_rows[..row_numbers],
        &mut counts,
    );
    replay_outputs::answered_whole(refusal, &counts, &out_nodes, &out_rows, answers)
}
