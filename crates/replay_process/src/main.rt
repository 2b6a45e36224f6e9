// Replays the stored cases of `process`, called through the C interface (`replay_program` says what a case is, `replay_outputs`
// what its answers are). Its case is the line above `process`.
#![tactic(auto)]

use replay_answers::Outcome;
use replay_process_call::{MARKS, POOL, TEXT};

// The operation's number, the first number of its cases.
const PROCESS: u32 = 26;

fn main(rt: HostRuntime) {
    replay_program::replay_all(&rt, replay);
}

// `rest` is what follows the two lists in the case.
fn replay(operation: u32, nodes: &[u32], rows: &[u32], rest: &[u32]) -> Outcome {
    if operation != PROCESS {
        return Outcome::Bad;
    }
    let at = answers_at(rest);
    if rest.len() < at {
        return Outcome::Bad;
    }
    replay_process_call::process(nodes, rows, rest, &rest[at..])
}

// Where the answers begin in the rest of a case: past its end, if its lists are not there.
fn answers_at(rest: &[u32]) -> usize {
    let mut text = [0u8; TEXT];
    let mut added = [0u8; POOL];
    after_lists(rest, &mut text, &mut added)
}

// The place after the five lists of a case. A list that does not fit lets none after it fit.
fn after_lists(rest: &[u32], text: &mut [u8], added: &mut [u8]) -> usize {
    let entries = replay_cases::list_at(rest, MARKS);
    let members = replay_cases::list_at(rest, entries.end);
    let single = replay_bytes::bytes_at(rest, members.end, text);
    let held = replay_bytes::texts_at(rest, single.end, text, added);
    if held.fits { held.end } else { usize::MAX }
}
