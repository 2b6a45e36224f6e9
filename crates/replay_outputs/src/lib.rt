// The output of an operation that writes, for the replay programs: how much is lent for it, and whether what was left in it is
// what a case has stored.
//
// The answers of such an operation are its refusal, the counts of nodes and rows, and all that stands in its output after the
// call, as two lists. So many numbers are lent as these have.
#![tactic(auto)]

ghost use Rattle.std.specs.Prelude.{true, ◌≡◌, replicate};
ghost use Rattle.lists.specs.Lists.{Decides};
ghost use Rattle.replay_cases.specs.Case.{part_at};
ghost use Rattle.replay_outputs.specs.Promises.{LengthAt, ToldFirst, Left, Stored, Ends, LeftAs};

use replay_answers::Outcome;

// The most numbers of a list of an output.
pub const OUTPUT: usize = 2048;

// What stands in each number that is lent before a call.
pub const BEFORE: u32 = 7;

pub const BEFORE_COUNT: usize = 7;

// The number at a place of a case as a length, at most as much as is lent.
fn length_at(case: &[u32], at: usize, lent: &[u32]) -> usize
    ensures { LengthAt case.now at lent.now result }
{
    let length = replay_cases::number_at(case, at) as usize;
    length.min(lent.len())
}

// How many numbers are lent for the nodes and for the rows: as many as the two lists of the answers have.
pub fn nodes_lent(answers: &[u32], lent: &[u32]) -> usize
    ensures { LengthAt answers.now 3 lent.now result }
{
    length_at(answers, 3, lent)
}

pub fn rows_lent(answers: &[u32], lent: &[u32]) -> usize
    ensures { LengthAt answers.now (part_at answers.now 3).end lent.now result }
{
    let nodes = replay_cases::list_at(answers, 3);
    length_at(answers, nodes.end, lent)
}

// Whether the answers are the refusal, the counts and what was left in the output. Answers that do not end with the two lists
// are not the same.
pub fn answered_whole(
    refusal: u32,
    counts: &[usize; 2],
    nodes: &[u32],
    rows: &[u32],
    answers: &[u32],
) -> Outcome
    ensures stored { result ≡ Outcome.Same → Stored refusal counts.now nodes.now rows.now answers.now }
    ensures ends { result ≡ Outcome.Same → Ends answers.now }
{
    if !told(refusal, counts, answers) {
        return Outcome::Differs;
    }
    left(nodes, rows, answers)
}

// Whether the answers begin with the refusal and the counts.
fn told(refusal: u32, counts: &[usize; 2], answers: &[u32]) -> bool
    ensures { result ≡ true → ToldFirst refusal counts.now answers.now }
{
    replay_cases::number_at(answers, 0) == refusal
        && replay_cases::number_at(answers, 1) as usize == counts[0]
        && replay_cases::number_at(answers, 2) as usize == counts[1]
}

// Whether the two lists that end the answers are what was left in the output.
fn left(nodes: &[u32], rows: &[u32], answers: &[u32]) -> Outcome
    ensures { result ≡ Outcome.Same → Left nodes.now rows.now answers.now }
{
    let first = replay_cases::list_at(answers, 3);
    let first_start = first.start;
    let first_end = first.end;
    let second = replay_cases::last_list(answers, first_end);
    if !second.fits {
        return Outcome::Bad;
    }
    let second_start = second.start;
    if !replay_answers::begins(nodes, &answers[first_start..first_end]) {
        return Outcome::Differs;
    }
    replay_answers::compared(replay_answers::begins(rows, &answers[second_start..]))
}

// The numbers of each list of a working store, and what is answered in place of a refusal where one was not left as its case
// says.
pub const WORKING: usize = 2048;

const NOT_LEFT: u32 = 4294967295;

// What is answered of a working store: the refusal, if each of its numbers is this one.
pub fn left_as(number: u32, nodes: &[u32], rows: &[u32], refusal: u32) -> u32
    ensures { LeftAs number nodes.now rows.now refusal result }
{
    if all_are(number, nodes) && all_are(number, rows) {
        refusal
    } else {
        NOT_LEFT
    }
}

fn all_are(number: u32, store: &[u32]) -> bool
    ensures { Decides result (store.now ≡ replicate 2048 number) }
{
    let expected = [number; WORKING];
    replay_answers::equal(store, &expected)
}
