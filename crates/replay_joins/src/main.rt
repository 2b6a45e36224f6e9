// Replays the stored cases of the operation that joins two encodings, called through the C interface (`replay_program` says what
// a case is, `replay_outputs` what its answers are). The line above its function is its whole case.
#![tactic(auto)]

ghost use Rattle.std.specs.Prelude.{◌≤◌, length};

use replay_answers::Outcome;
use replay_outputs::{BEFORE, BEFORE_COUNT, OUTPUT};

// The operation's number, the first number of each case.
const MERGE_WITH: u32 = 18;

fn main(rt: HostRuntime) {
    replay_program::replay_all(&rt, replay);
}

// `rest` is what follows the two lists in the case.
fn replay(operation: u32, nodes: &[u32], rows: &[u32], rest: &[u32]) -> Outcome {
    if operation != MERGE_WITH {
        return Outcome::Bad;
    }
    let at = after_second(rest);
    merge_with(nodes, rows, rest, &rest[at..])
}

// The place after the second batch of a case and its growing mark.
fn after_second(rest: &[u32]) -> usize
    ensures { result ≤ length rest.now }
{
    let nodes = replay_cases::list_at(rest, 0);
    let rows = replay_cases::list_at(rest, nodes.end);
    let end = rows.end;
    if end < rest.len() { end + 1 } else { end }
}

// `18 nodes rows second-nodes second-rows growing refusal nodes rows out-nodes out-rows`
fn merge_with(nodes: &[u32], rows: &[u32], rest: &[u32], answers: &[u32]) -> Outcome {
    let second = replay_cases::list_at(rest, 0);
    let second_start = second.start;
    let second_end = second.end;
    let third = replay_cases::list_at(rest, second_end);
    let third_start = third.start;
    let third_end = third.end;
    let mut out_nodes = [BEFORE; OUTPUT];
    let mut out_rows = [BEFORE; OUTPUT];
    let mut counts = [BEFORE_COUNT; 2];
    let node_numbers = replay_outputs::nodes_lent(answers, &out_nodes);
    let row_numbers = replay_outputs::rows_lent(answers, &out_rows);
    let refusal = c_join::noddrefyr_merge_with(
        nodes,
        rows,
        &rest[second_start..second_end],
        &rest[third_start..third_end],
        replay_cases::number_at(rest, third_end) == 1,
        &mut out_nodes[..node_numbers],
        &mut out_rows[..row_numbers],
        &mut counts,
    );
    replay_outputs::answered_whole(refusal, &counts, &out_nodes, &out_rows, answers)
}
