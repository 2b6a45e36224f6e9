// Replays the stored cases of the operations that pad encodings, each called through the C interface (`replay_program`
// says what a case is, `replay_outputs` what its answers are), and of the rounding of their lengths, which is called itself.
// Lengths and multiples have 64 bits, and stand in a case as their low and their high 32 bits. The line above each function is
// its whole case. To add one: its number, a case of `answers_at`, such a function, an arm of `run`, and its cases, which the
// comparison with the Rust makes.
#![tactic(auto)]

use replay_answers::Outcome;
use replay_outputs::{BEFORE, BEFORE_COUNT, OUTPUT};

// Operation numbers, the first number of each case.
const PAD: u32 = 21;

const PAD_ENCODINGS: u32 = 22;

const ROUNDED_LENGTH: u32 = 31;

// How many halves a length and a multiple have.
const HALVES: usize = 4;

// The bytes of the added pool.
const POOL: usize = 8;

fn main(rt: HostRuntime) {
    replay_program::replay_all(&rt, replay);
}

// `rest` is what follows the two lists in the case.
fn replay(operation: u32, nodes: &[u32], rows: &[u32], rest: &[u32]) -> Outcome {
    let at = answers_at(operation);
    if rest.len() < at {
        return Outcome::Bad;
    }
    run(operation, nodes, rows, rest, &rest[at..])
}

// Where the answers of an operation begin in the rest of its case: past its end, if it is none of these.
fn answers_at(operation: u32) -> usize {
    match operation {
        PAD => 7,
        PAD_ENCODINGS => 10,
        ROUNDED_LENGTH => 0,
        _ => usize::MAX,
    }
}

// Runs an operation. Each has an output of its own: lending one to all of them would cost the check more.
fn run(operation: u32, nodes: &[u32], rows: &[u32], rest: &[u32], answers: &[u32]) -> Outcome {
    match operation {
        PAD => pad(nodes, rows, rest, answers),
        PAD_ENCODINGS => pad_encodings(nodes, rows, rest, answers),
        _ => rounded_length(nodes, rows, answers),
    }
}

// `21 nodes rows length id type text-start text-length left refusal nodes rows out-nodes out-rows`, with a pool of 8 bytes
fn pad(nodes: &[u32], rows: &[u32], rest: &[u32], answers: &[u32]) -> Outcome {
    let added = [0u8; POOL];
    let mut out_nodes = [BEFORE; OUTPUT];
    let mut out_rows = [BEFORE; OUTPUT];
    let mut counts = [BEFORE_COUNT; 2];
    let node_numbers = replay_outputs::nodes_lent(answers, &out_nodes);
    let row_numbers = replay_outputs::rows_lent(answers, &out_rows);
    let refusal = c_pad::noddrefyr_pad(
        nodes,
        rows,
        &added,
        replay_halves::number_at(rest, 0, 1),
        replay_cases::number_at(rest, 2),
        replay_cases::number_at(rest, 3),
        replay_cases::number_at(rest, 4),
        replay_cases::number_at(rest, 5),
        replay_cases::number_at(rest, 6) == 1,
        &mut out_nodes[..node_numbers],
        &mut out_rows[..row_numbers],
        &mut counts,
    );
    replay_outputs::answered_whole(refusal, &counts, &out_nodes, &out_rows, answers)
}

// `22 nodes rows fixed length multiple id type text-start text-length left refusal nodes rows out-nodes out-rows`, with a pool
// of 8 bytes
fn pad_encodings(nodes: &[u32], rows: &[u32], rest: &[u32], answers: &[u32]) -> Outcome {
    let added = [0u8; POOL];
    let mut out_nodes = [BEFORE; OUTPUT];
    let mut out_rows = [BEFORE; OUTPUT];
    let mut counts = [BEFORE_COUNT; 2];
    let node_numbers = replay_outputs::nodes_lent(answers, &out_nodes);
    let row_numbers = replay_outputs::rows_lent(answers, &out_rows);
    let refusal = c_pad::noddrefyr_pad_encodings(
        nodes,
        rows,
        &added,
        replay_cases::number_at(rest, 0) == 1,
        replay_halves::number_at(rest, 1, 2),
        replay_halves::number_at(rest, 3, 4),
        replay_cases::number_at(rest, 5),
        replay_cases::number_at(rest, 6),
        replay_cases::number_at(rest, 7),
        replay_cases::number_at(rest, 8),
        replay_cases::number_at(rest, 9) == 1,
        &mut out_nodes[..node_numbers],
        &mut out_rows[..row_numbers],
        &mut counts,
    );
    replay_outputs::answered_whole(refusal, &counts, &out_nodes, &out_rows, answers)
}

// `31 length-and-multiple nothing rounded`
fn rounded_length(numbers: &[u32], nothing: &[u32], answers: &[u32]) -> Outcome {
    if numbers.len() != HALVES {
        return Outcome::Bad;
    }
    if nothing.len() != 0 {
        return Outcome::Bad;
    }
    let length = replay_halves::number_at(numbers, 0, 1);
    let multiple = replay_halves::number_at(numbers, 2, 3);
    let rounded = pad_length::rounded_length(length, multiple);
    let halves = [replay_halves::low(rounded), replay_halves::high(rounded)];
    same_halves(&halves, answers)
}

// Whether the halves of a number are the list with which a case ends.
fn same_halves(halves: &[u32; 2], answers: &[u32]) -> Outcome {
    let stored = replay_cases::last_list(answers, 0);
    if !stored.fits {
        return Outcome::Bad;
    }
    let start = stored.start;
    replay_answers::compared(replay_answers::equal(halves, &answers[start..]))
}
