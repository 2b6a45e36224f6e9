// Replays the stored cases of the operations on templates, each called through the C interface (`replay_program` says what a
// case is). Texts and the added pool are lists of bytes, and the line above each function is its whole case; the one that reads a
// template stands in `replay_template_call`. To add one: its number, such a function, an arm of `replay`, and its cases, which
// the comparison with the Rust makes.
#![tactic(auto)]

use replay_answers::Outcome;
use replay_template_call::TEXT;

// Operation numbers, the first number of each case.
const READ_TEMPLATE: u32 = 23;

const VALIDATE: u32 = 24;

const COUNT_ADDED: u32 = 25;

// The most bytes of the added pool.
const POOL: usize = 256;

// What stands in the lent sum and in each number of a lent fault before a call.
const BEFORE_SUM: u64 = 7;

const BEFORE_PLACE: usize = 7;

// The largest number of a case.
const LARGEST: u64 = 4294967295;

const LARGEST_PLACE: usize = 4294967295;

const NOT_STORED: u32 = 4294967295;

fn main(rt: HostRuntime) {
    replay_program::replay_all(&rt, replay);
}

// `first` and `second` are the lists that the case begins with, `rest` what follows them.
fn replay(operation: u32, first: &[u32], second: &[u32], rest: &[u32]) -> Outcome {
    match operation {
        READ_TEMPLATE => replay_template_call::read_template(first, second, rest),
        VALIDATE => validate(first, second, rest),
        COUNT_ADDED => count_added(first, second, rest),
        _ => Outcome::Bad,
    }
}

// `24 entries members single-set pair-set single pair added refusal template part place`
fn validate(entries: &[u32], members: &[u32], rest: &[u32]) -> Outcome {
    let mut single = [0u8; TEXT];
    let mut pair = [0u8; TEXT];
    let mut added = [0u8; POOL];
    validated(entries, members, rest, &mut single, &mut pair, &mut added)
}

fn validated(
    entries: &[u32],
    members: &[u32],
    rest: &[u32],
    single: &mut [u8],
    pair: &mut [u8],
    added: &mut [u8],
) -> Outcome {
    let list = replay_bytes::bytes_at(rest, 2, single);
    let single_bytes = list.end - list.start;
    let held = replay_bytes::texts_at(rest, list.end, pair, added);
    let pair_bytes = held.first;
    let added_bytes = held.second;
    let mut fault = [BEFORE_PLACE; 3];
    let refusal = c_validate::noddrefyr_validate(
        replay_cases::number_at(rest, 0) == 1,
        &single[..single_bytes],
        replay_cases::number_at(rest, 1) == 1,
        &pair[..pair_bytes],
        entries,
        members,
        &added[..added_bytes],
        &mut fault,
    );
    let answer = [
        as_stored(fault[0]),
        as_stored(fault[1]),
        as_stored(fault[2]),
    ];
    replay_answers::answered(refusal, &answer, rest, held.end)
}

// A number as a case has it. One that is too large is the largest, which no case stores.
fn as_stored(number: usize) -> u32 {
    if number > LARGEST_PLACE {
        return NOT_STORED;
    }
    number as u32
}

// `25 entries members set is-pair text added refusal count part place`
fn count_added(entries: &[u32], members: &[u32], rest: &[u32]) -> Outcome {
    let mut text = [0u8; TEXT];
    let mut added = [0u8; POOL];
    counted(entries, members, rest, &mut text, &mut added)
}

fn counted(
    entries: &[u32],
    members: &[u32],
    rest: &[u32],
    text: &mut [u8],
    added: &mut [u8],
) -> Outcome {
    let held = replay_bytes::texts_at(rest, 2, text, added);
    let text_bytes = held.first;
    let added_bytes = held.second;
    let mut sum = BEFORE_SUM;
    let mut fault = [BEFORE_PLACE; 2];
    let refusal = c_validate::noddrefyr_count_added(
        replay_cases::number_at(rest, 0) == 1,
        &text[..text_bytes],
        replay_cases::number_at(rest, 1) == 1,
        entries,
        members,
        &added[..added_bytes],
        &mut sum,
        &mut fault,
    );
    sum_stored(refusal, sum, fault, rest, held.end)
}

// Whether a case is, from a place on, a refusal, a sum, which may be too large for a number of a case, and the part at fault.
fn sum_stored(refusal: u32, sum: u64, fault: [usize; 2], rest: &[u32], at: usize) -> Outcome {
    if sum > LARGEST {
        return Outcome::Differs;
    }
    let answer = [sum as u32, as_stored(fault[0]), as_stored(fault[1])];
    replay_answers::answered(refusal, &answer, rest, at)
}
