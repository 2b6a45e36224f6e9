// Replays the stored cases of the operations that convert offsets, each called through the C interface (`replay_program`
// says what a case is, `replay_outputs` what its answers are). The line above each function is its whole case.
// To add one: its number, such a function, an arm of `run`, and its cases, which the comparison makes.
#![tactic(auto)]

use replay_answers::Outcome;
use replay_outputs::{BEFORE, BEFORE_COUNT, OUTPUT};

// Operation numbers, the first number of each case.
const BYTES_TO_CHARS: u32 = 27;

const CHARS_TO_BYTES: u32 = 28;

// The most bytes of a stored text.
const TEXT: usize = 64;

fn main(rt: HostRuntime) {
    replay_program::replay_all(&rt, replay);
}

// `rest` is what follows the two lists in the case: the text as a list of bytes, and the answers.
fn replay(operation: u32, nodes: &[u32], rows: &[u32], rest: &[u32]) -> Outcome {
    let mut text = [0u8; TEXT];
    let held = replay_bytes::bytes_at(rest, 0, &mut text);
    if !held.fits {
        return Outcome::Bad;
    }
    let count = held.end - held.start;
    let end = held.end;
    run(operation, nodes, rows, &text[..count], &rest[end..])
}

// Runs an operation. Each has an output of its own: lending one to all of them would cost the check more.
fn run(operation: u32, nodes: &[u32], rows: &[u32], text: &[u8], answers: &[u32]) -> Outcome {
    match operation {
        BYTES_TO_CHARS => bytes_to_chars(nodes, rows, text, answers),
        CHARS_TO_BYTES => chars_to_bytes(nodes, rows, text, answers),
        _ => Outcome::Bad,
    }
}

// `27 nodes rows text refusal nodes rows out-nodes out-rows`
fn bytes_to_chars(nodes: &[u32], rows: &[u32], text: &[u8], answers: &[u32]) -> Outcome {
    let mut out_nodes = [BEFORE; OUTPUT];
    let mut out_rows = [BEFORE; OUTPUT];
    let mut counts = [BEFORE_COUNT; 2];
    let node_numbers = replay_outputs::nodes_lent(answers, &out_nodes);
    let row_numbers = replay_outputs::rows_lent(answers, &out_rows);
    let refusal = c_offsets::noddrefyr_bytes_to_chars(
        nodes,
        rows,
        text,
        &mut out_nodes[..node_numbers],
        &mut out_rows[..row_numbers],
        &mut counts,
    );
    replay_outputs::answered_whole(refusal, &counts, &out_nodes, &out_rows, answers)
}

// `28 nodes rows text refusal nodes rows out-nodes out-rows`
fn chars_to_bytes(nodes: &[u32], rows: &[u32], text: &[u8], answers: &[u32]) -> Outcome {
    let mut out_nodes = [BEFORE; OUTPUT];
    let mut out_rows = [BEFORE; OUTPUT];
    let mut counts = [BEFORE_COUNT; 2];
    let node_numbers = replay_outputs::nodes_lent(answers, &out_nodes);
    let row_numbers = replay_outputs::rows_lent(answers, &out_rows);
    let refusal = c_offsets::noddrefyr_chars_to_bytes(
        nodes,
        rows,
        text,
        &mut out_nodes[..node_numbers],
        &mut out_rows[..row_numbers],
        &mut counts,
    );
    replay_outputs::answered_whole(refusal, &counts, &out_nodes, &out_rows, answers)
}
