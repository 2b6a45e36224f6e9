// Replays the stored cases of the operations that number rows and nodes through the whole batch: texts and spans
// (`replay_program` says what a case is). The line above each function is its whole case. To add one: its number, such a
// function, an arm of `replay`, and its cases, which the comparison with the Rust makes.
#![tactic(auto)]

use record::Row;
use replay_answers::Outcome;

// Operation numbers, the first number of each case.
const TEXT: u32 = 14;

const SPAN: u32 = 15;

const TEXT_PART: u32 = 17;

// The most bytes of a pool.
const POOL: usize = 64;

// What stands in each lent number before a call.
const BEFORE: u32 = 7;

fn main(rt: HostRuntime) {
    replay_program::replay_all(&rt, replay);
}

// `rest` is what follows the nodes and the rows in the case.
fn replay(operation: u32, nodes: &[u32], rows: &[u32], rest: &[u32]) -> Outcome {
    match operation {
        TEXT => text(nodes, rows, rest),
        SPAN => span(nodes, rows, rest),
        TEXT_PART => text_part(nodes, rows, rest),
        _ => Outcome::Bad,
    }
}

// `14 nodes rows row tokens added refusal found pool start length`, the two pools as lists of bytes
fn text(nodes: &[u32], rows: &[u32], rest: &[u32]) -> Outcome {
    let mut tokens = [0u8; POOL];
    let mut added = [0u8; POOL];
    text_found(nodes, rows, rest, &mut tokens, &mut added)
}

fn text_found(
    nodes: &[u32],
    rows: &[u32],
    rest: &[u32],
    tokens: &mut [u8],
    added: &mut [u8],
) -> Outcome {
    let held = replay_bytes::texts_at(rest, 1, tokens, added);
    let token_bytes = held.first;
    let added_bytes = held.second;
    let row = replay_cases::number_at(rest, 0);
    let mut answer = [BEFORE; 4];
    let refusal = c_texts::noddrefyr_text(
        nodes,
        rows,
        row,
        &tokens[..token_bytes],
        &added[..added_bytes],
        &mut answer,
    );
    replay_answers::answered(refusal, &answer, rest, held.end)
}

// `15 nodes rows node refusal found start end`
fn span(nodes: &[u32], rows: &[u32], rest: &[u32]) -> Outcome {
    let node = replay_cases::number_at(rest, 0);
    let mut answer = [BEFORE; 3];
    let refusal = c_texts::noddrefyr_span(nodes, rows, node, &mut answer);
    replay_answers::answered(refusal, &answer, rest, 1)
}

// `17 nodes rows row tokens added part`, the two pools and the part as lists of bytes. It returns a part of a lent slice,
// which cannot cross the C interface: so it is called itself.
fn text_part(nodes: &[u32], rows: &[u32], rest: &[u32]) -> Outcome {
    let mut tokens = [0u8; POOL];
    let mut added = [0u8; POOL];
    part_found(nodes, rows, rest, &mut tokens, &mut added)
}

fn part_found(
    nodes: &[u32],
    rows: &[u32],
    rest: &[u32],
    tokens: &mut [u8],
    added: &mut [u8],
) -> Outcome {
    let held = replay_bytes::texts_at(rest, 1, tokens, added);
    let token_bytes = held.first;
    let added_bytes = held.second;
    let row = Row(replay_cases::number_at(rest, 0));
    let part = lookup_texts::text_part(
        nodes,
        rows,
        row,
        &tokens[..token_bytes],
        &added[..added_bytes],
    );
    part_stored(part, rest, held.end)
}

// Whether the part is the list at a place, which ends the case.
fn part_stored(part: &[u8], rest: &[u32], at: usize) -> Outcome {
    let stored = replay_cases::last_list(rest, at);
    if !stored.fits {
        return Outcome::Bad;
    }
    let start = stored.start;
    replay_answers::compared(replay_bytes::same_bytes(part, &rest[start..]))
}
