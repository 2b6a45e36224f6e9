// The call of `process` that a stored case asks for, through the C interface, and whether it did what is stored, for the program
// `replay_process`.
#![tactic(auto)]

ghost use Rattle.std.specs.Prelude.{◌≡◌};
ghost use Rattle.replay_outputs.specs.Promises.{Ends};
ghost use Rattle.replay_process_call.specs.Promises.{FaultAs};

use replay_answers::Outcome;
use replay_outputs::{BEFORE, BEFORE_COUNT, OUTPUT, WORKING};

// How many numbers stand before the lists in the rest of a case.
pub const MARKS: usize = 6;

// The most bytes of a text, some more than a template may have, and of the added pool.
pub const TEXT: usize = 4100;

pub const POOL: usize = 256;

// What stands in each number of a working store before a call.
const LENT: u32 = 7;

const NOT_STORED: u32 = 4294967295;

// `26 nodes rows add single-set pair-set left part place entries members single pair added refusal nodes rows out-nodes out-rows`:
// `left` is what each number of the working store is after the call, `part` and `place` what those of the fault are
pub fn process(nodes: &[u32], rows: &[u32], rest: &[u32], answers: &[u32]) -> Outcome
    ensures { result ≡ Outcome.Same → Ends answers.now }
{
    let mut single = [0u8; TEXT];
    let mut pair = [0u8; TEXT];
    let mut added = [0u8; POOL];
    with_texts(
        nodes,
        rows,
        rest,
        answers,
        &mut single,
        &mut pair,
        &mut added,
    )
}

fn with_texts(
    nodes: &[u32],
    rows: &[u32],
    rest: &[u32],
    answers: &[u32],
    single: &mut [u8],
    pair: &mut [u8],
    added: &mut [u8],
) -> Outcome
    ensures { result ≡ Outcome.Same → Ends answers.now }
{
    let entries = replay_cases::list_at(rest, MARKS);
    let members = replay_cases::list_at(rest, entries.end);
    let list = replay_bytes::bytes_at(rest, members.end, single);
    let single_bytes = list.end - list.start;
    let held = replay_bytes::texts_at(rest, list.end, pair, added);
    let pair_bytes = held.first;
    let added_bytes = held.second;
    processed(
        nodes,
        rows,
        rest,
        answers,
        &single[..single_bytes],
        &pair[..pair_bytes],
        &added[..added_bytes],
    )
}

fn processed<'a>(
    nodes: &[u32],
    rows: &[u32],
    rest: &[u32],
    answers: &[u32],
    single: &'a [u8],
    pair: &'a [u8],
    added: &[u8],
) -> Outcome
    ensures { result ≡ Outcome.Same → Ends answers.now }
{
    let entries = replay_cases::list_at(rest, MARKS);
    let entries_start = entries.start;
    let entries_end = entries.end;
    let members = replay_cases::list_at(rest, entries_end);
    let members_start = members.start;
    let members_end = members.end;
    let mut out_nodes = [BEFORE; OUTPUT];
    let mut out_rows = [BEFORE; OUTPUT];
    let mut working_nodes = [LENT; WORKING];
    let mut working_rows = [LENT; WORKING];
    let mut counts = [BEFORE_COUNT; 2];
    let mut fault = [BEFORE_COUNT; 2];
    let node_numbers = replay_outputs::nodes_lent(answers, &out_nodes);
    let row_numbers = replay_outputs::rows_lent(answers, &out_rows);
    let refusal = c_process::noddrefyr_process(
        nodes,
        rows,
        replay_cases::number_at(rest, 1) == 1,
        single,
        replay_cases::number_at(rest, 2) == 1,
        pair,
        &rest[entries_start..entries_end],
        &rest[members_start..members_end],
        added,
        replay_cases::number_at(rest, 0) == 1,
        &mut out_nodes[..node_numbers],
        &mut out_rows[..row_numbers],
        &mut working_nodes,
        &mut working_rows,
        &mut counts,
        &mut fault,
    );
    let left = replay_cases::number_at(rest, 3);
    let stored = replay_outputs::left_as(left, &working_nodes, &working_rows, refusal);
    let answer = fault_as(fault, rest, stored);
    replay_outputs::answered_whole(answer, &counts, &out_nodes, &out_rows, answers)
}

// What is answered of a fault: the refusal, if both its numbers are those of the case.
fn fault_as(fault: [usize; 2], rest: &[u32], refusal: u32) -> u32
    ensures { FaultAs fault rest.now refusal result }
{
    if replay_cases::number_at(rest, 4) as usize == fault[0]
        && replay_cases::number_at(rest, 5) as usize == fault[1]
    {
        refusal
    } else {
        NOT_STORED
    }
}
