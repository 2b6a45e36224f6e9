// What the result of a template's steps takes, known before it is built (document 01, refusal 2 of process).
#![tactic(auto)]

ghost use Rattle.join_levels.specs.Levels.{Profiled};
ghost use Rattle.process_rows.specs.Promises.{AskSteps, AskAt};
ghost use Rattle.process_sizes.specs.Promises.{SizesSteps, ProfileAt, ProfilesAlone, MeasuresAlone, AskStepSize, MeasuresStep, MeasuresSteps};

use join_levels::Profile;
use join_table::LEVELS;
use process_steps::Step;
use record::Encoding;
use record_room::Size;

// The profile of the encoding that begins at a place; that of the empty one where there is none.
fn profile_of(nodes: &[u32], at: usize) -> Profile
    requires { AskAt nodes.now at }
    ensures { ProfileAt nodes.now at result }
{
    if at < nodes.len() {
        return join_levels_stored::profile_at(nodes, at);
    }
    fold_levels::empty_profile()
}

// The profile of so many rows without windows.
fn profile_of_rows(count: usize) -> Profile
    ensures { ProfilesAlone count result }
{
    let mut nodes = [0usize; LEVELS];
    nodes[0] = 1;
    let mut rows = [0usize; LEVELS];
    rows[0] = count;
    Profile {
        nodes,
        rows,
        levels: 0,
    }
}

// What was folded so far, joined with so many special rows; none if that is too large. More than the limit are so whatever they are
// joined to.
fn with_special(so_far: Profile, count: usize) -> Option<Profile>
    requires { Profiled so_far }
    ensures { MeasuresAlone so_far count result }
{
    if Encoding::MOST_ROWS < count {
        return None;
    }
    let special = profile_of_rows(count);
    join_levels::joined_profile(so_far, special)
}

// What was folded so far, joined with what a step joins; none if that is too large.
fn with_step(
    so_far: Profile,
    entries: &[u32],
    step: Step,
    first: Profile,
    second: Profile,
) -> Option<Profile>
    requires { AskStepSize so_far entries.now step first second }
    ensures { MeasuresStep so_far entries.now step first second result }
{
    match step {
        Step::First(_) => join_levels::joined_profile(so_far, first),
        Step::Second(_) => join_levels::joined_profile(so_far, second),
        Step::Special(_, entry) => with_special(
            so_far,
            process_rows::rows_of_entry(entries, entry) as usize,
        ),
    }
}

// The profile of what the steps give, step by step; none if it is too large, at the first step that is.
fn profile_of_steps(
    nodes: &[u32],
    second: usize,
    entries: &[u32],
    steps: &[u32],
    count: usize,
) -> Option<Profile>
    requires { AskSteps nodes.now second entries.now steps.now count }
    ensures { MeasuresSteps nodes.now second entries.now steps.now count result }
{
    let of_first = profile_of(nodes, 0);
    let of_second = profile_of(nodes, second);
    let mut so_far = fold_levels::empty_profile();
    for i in 0..count {
        let step = process_steps::step_at(steps, i);
        so_far = with_step(so_far, entries, step, of_first, of_second)?;
    }
    Some(so_far)
}

// What the first `count` steps give of the encodings that begin the nodes and that begin at `second`. Where none of them has
// windows it is one node with all the rows.
pub fn size_of_steps(
    nodes: &[u32],
    second: usize,
    entries: &[u32],
    steps: &[u32],
    count: usize,
) -> Size
    requires { AskSteps nodes.now second entries.now steps.now count }
    ensures { SizesSteps nodes.now second entries.now steps.now count result }
{
    if process_rows::is_windowless(nodes, 0) {
        if process_rows::is_windowless(nodes, second) {
            let rows = process_rows::rows_of_steps(nodes, second, entries, steps, count);
            return Size {
                fits: rows <= Encoding::MOST_ROWS,
                nodes: 1,
                rows,
            };
        }
    }
    join_size::size_of(profile_of_steps(nodes, second, entries, steps, count))
}
