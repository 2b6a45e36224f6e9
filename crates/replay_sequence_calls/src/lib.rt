// The calls that stored cases of a batch and of its sequences ask for, through the C interface, and whether each gave what is
// stored, for the program `replay_lookups`. `rest` is what follows the nodes and the rows in a case.
#![tactic(auto)]

ghost use Rattle.std.specs.Prelude.{[], ◌∷◌, get_or, replicate};
ghost use Rattle.record.specs.Read.{read};
ghost use Rattle.record_check.specs.Answers.{shape_of};
ghost use Rattle.lookup_sequences.specs.Answers.{range_answer, sequence_count_answer, sequence_answer};
ghost use Rattle.c_sequences.specs.Answers.{range_crossed, count_crossed, sequence_crossed};
ghost use Rattle.replay_answers.specs.Promises.{Told};
ghost use Rattle.replay_sequence_calls.specs.Promises.{ToldCrossed, ToldShape};

use replay_answers::Outcome;

// What stands in each lent number before a call.
pub const BEFORE: u32 = 7;

const BEFORE_COUNT: usize = 7;

// `1 nodes rows refusal encodings`
pub fn check_batch(nodes: &[u32], rows: &[u32], rest: &[u32]) -> Outcome
    ensures { ToldShape result 7 (shape_of (read nodes.now rows.now)) rest.now 0 }
{
    let mut encodings = BEFORE_COUNT;
    let refusal = c_make::noddrefyr_check_batch(nodes, rows, &mut encodings);
    counted(refusal, encodings, rest)
}

// Whether the rest of a case is a refusal and a count.
fn counted(refusal: u32, count: usize, rest: &[u32]) -> Outcome
    ensures { Told result (refusal ∷ count ∷ []) rest.now 0 }
{
    if rest.len() != 2 {
        return Outcome::Bad;
    }
    replay_answers::compared(rest[0] == refusal && rest[1] as usize == count)
}

// `2 nodes rows sequence refusal start end`
pub fn sequence_range(nodes: &[u32], rows: &[u32], rest: &[u32]) -> Outcome
    ensures { ToldCrossed result
        (range_crossed (replicate 2 7) (range_answer (read nodes.now rows.now) (get_or rest.now 0 0)))
        rest.now 1 }
{
    let sequence = replay_cases::number_at(rest, 0);
    let mut answer = [BEFORE; 2];
    let refusal = c_sequences::noddrefyr_sequence_range(nodes, rows, sequence, &mut answer);
    replay_answers::answered(refusal, &answer, rest, 1)
}

// `3 nodes rows refusal count`
pub fn n_sequences(nodes: &[u32], rows: &[u32], rest: &[u32]) -> Outcome
    ensures { ToldCrossed result
        (count_crossed (replicate 1 7) (sequence_count_answer (read nodes.now rows.now)))
        rest.now 0 }
{
    let mut answer = [BEFORE; 1];
    let refusal = c_sequences::noddrefyr_n_sequences(nodes, rows, &mut answer);
    replay_answers::answered(refusal, &answer, rest, 0)
}

// `4 nodes rows token refusal found sequence place`
pub fn token_to_sequence(nodes: &[u32], rows: &[u32], rest: &[u32]) -> Outcome
    ensures { ToldCrossed result
        (sequence_crossed (replicate 3 7) (sequence_answer (read nodes.now rows.now) (get_or rest.now 0 0)))
        rest.now 1 }
{
    let token = replay_cases::number_at(rest, 0);
    let mut answer = [BEFORE; 3];
    let refusal = c_sequences::noddrefyr_token_to_sequence(nodes, rows, token, &mut answer);
    replay_answers::answered(refusal, &answer, rest, 1)
}
