// Replays the stored cases of the operations that answer in a few numbers: each is called through the C interface, and what it
// gives is compared with the end of its case (`replay_program` says what a case is). The line above each function is its whole
// case; those of a batch and its sequences stand in `replay_sequence_calls`. To add one: its number, such a function, an arm of
// `replay`, and its cases, which the comparison with the Rust makes.
#![tactic(auto)]

use replay_answers::Outcome;
use replay_sequence_calls::BEFORE;

// Operation numbers, the first number of each case.
const CHECK_BATCH: u32 = 1;

const SEQUENCE_RANGE: u32 = 2;

const N_SEQUENCES: u32 = 3;

const TOKEN_TO_SEQUENCE: u32 = 4;

const WORD_TO_TOKENS: u32 = 6;

const WORD_TO_CHARS: u32 = 7;

const CHAR_TO_TOKEN: u32 = 8;

const TOKEN_TO_CHARS: u32 = 9;

const TOKEN_TO_WORD: u32 = 10;

const CHAR_TO_WORD: u32 = 11;

fn main(rt: HostRuntime) {
    replay_program::replay_all(&rt, replay);
}

// `rest` is what follows the nodes and the rows in the case.
fn replay(operation: u32, nodes: &[u32], rows: &[u32], rest: &[u32]) -> Outcome {
    match operation {
        CHECK_BATCH => replay_sequence_calls::check_batch(nodes, rows, rest),
        SEQUENCE_RANGE => replay_sequence_calls::sequence_range(nodes, rows, rest),
        N_SEQUENCES => replay_sequence_calls::n_sequences(nodes, rows, rest),
        TOKEN_TO_SEQUENCE => replay_sequence_calls::token_to_sequence(nodes, rows, rest),
        WORD_TO_TOKENS => word_to_tokens(nodes, rows, rest),
        WORD_TO_CHARS => word_to_chars(nodes, rows, rest),
        CHAR_TO_TOKEN => char_to_token(nodes, rows, rest),
        TOKEN_TO_CHARS => token_to_chars(nodes, rows, rest),
        TOKEN_TO_WORD => token_to_word(nodes, rows, rest),
        CHAR_TO_WORD => char_to_word(nodes, rows, rest),
        _ => Outcome::Bad,
    }
}

// `6 nodes rows word sequence refusal found start end`
fn word_to_tokens(nodes: &[u32], rows: &[u32], rest: &[u32]) -> Outcome {
    let word = replay_cases::number_at(rest, 0);
    let sequence = replay_cases::number_at(rest, 1);
    let mut answer = [BEFORE; 3];
    let refusal = c_words::noddrefyr_word_to_tokens(nodes, rows, word, sequence, &mut answer);
    replay_answers::answered(refusal, &answer, rest, 2)
}

// `7 nodes rows word sequence refusal found start end`
fn word_to_chars(nodes: &[u32], rows: &[u32], rest: &[u32]) -> Outcome {
    let word = replay_cases::number_at(rest, 0);
    let sequence = replay_cases::number_at(rest, 1);
    let mut answer = [BEFORE; 3];
    let refusal = c_words::noddrefyr_word_to_chars(nodes, rows, word, sequence, &mut answer);
    replay_answers::answered(refusal, &answer, rest, 2)
}

// `8 nodes rows place sequence refusal found row`
fn char_to_token(nodes: &[u32], rows: &[u32], rest: &[u32]) -> Outcome {
    let place = replay_cases::number_at(rest, 0);
    let sequence = replay_cases::number_at(rest, 1);
    let mut answer = [BEFORE; 2];
    let refusal = c_chars::noddrefyr_char_to_token(nodes, rows, place, sequence, &mut answer);
    replay_answers::answered(refusal, &answer, rest, 2)
}

// `9 nodes rows token refusal found sequence place start end`
fn token_to_chars(nodes: &[u32], rows: &[u32], rest: &[u32]) -> Outcome {
    let token = replay_cases::number_at(rest, 0);
    let mut answer = [BEFORE; 5];
    let refusal = c_chars::noddrefyr_token_to_chars(nodes, rows, token, &mut answer);
    replay_answers::answered(refusal, &answer, rest, 1)
}

// `10 nodes rows token refusal found sequence place word`
fn token_to_word(nodes: &[u32], rows: &[u32], rest: &[u32]) -> Outcome {
    let token = replay_cases::number_at(rest, 0);
    let mut answer = [BEFORE; 4];
    let refusal = c_words::noddrefyr_token_to_word(nodes, rows, token, &mut answer);
    replay_answers::answered(refusal, &answer, rest, 1)
}

// `11 nodes rows place sequence refusal found word`
fn char_to_word(nodes: &[u32], rows: &[u32], rest: &[u32]) -> Outcome {
    let place = replay_cases::number_at(rest, 0);
    let sequence = replay_cases::number_at(rest, 1);
    let mut answer = [BEFORE; 2];
    let refusal = c_words::noddrefyr_char_to_word(nodes, rows, place, sequence, &mut answer);
    replay_answers::answered(refusal, &answer, rest, 2)
}
