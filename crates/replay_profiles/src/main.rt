// Replays the stored cases of the check against the terminal profile, called through the C interface (`replay_program` says what a
// case is). The line above a function is its whole case. To add one: its number, such a function, an arm of `replay`, and its
// cases, which the comparison makes.
#![tactic(auto)]

use replay_answers::Outcome;

// The operation's number, the first number of each case.
const CHECK_PROFILE: u32 = 34;

// What stands in each lent number before a call.
const BEFORE: u32 = 7;

fn main(rt: HostRuntime) {
    replay_program::replay_all(&rt, replay);
}

// `rest` is what follows the nodes and the rows in the case.
fn replay(operation: u32, nodes: &[u32], rows: &[u32], rest: &[u32]) -> Outcome {
    match operation {
        CHECK_PROFILE => check_profile(nodes, rows, rest),
        _ => Outcome::Bad,
    }
}

// `34 nodes rows refusal rule node row`
fn check_profile(nodes: &[u32], rows: &[u32], rest: &[u32]) -> Outcome {
    let mut answer = [BEFORE; 3];
    let refusal = c_profile::noddrefyr_check_profile(nodes, rows, &mut answer);
    replay_answers::answered(refusal, &answer, rest, 0)
}
