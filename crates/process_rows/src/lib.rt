// The rows of what a template's steps give where no encoding has windows: one node with all of them (document 01, refusal 2 of
// process).
#![tactic(auto)]

ghost use Rattle.std.specs.Prelude.{◌≡◌, ◌/◌, ◌<◌, length};
ghost use Rattle.template_entries.specs.Table.{entry_width};
ghost use Rattle.template_entries.specs.Rows.{members_of};
ghost use Rattle.process_steps.specs.Promises.{EntryThere};
ghost use Rattle.process_rows.specs.Promises.{AskSteps, AskAt, WindowlessAt, SecondRows, step_rows, AddsRows};

use process_steps::Step;

// Whether the encoding that begins at a place has no windows; where there is none, there are none.
pub fn is_windowless(nodes: &[u32], at: usize) -> bool
    requires { AskAt nodes.now at }
    ensures { WindowlessAt nodes.now at result }
{
    if at < nodes.len() {
        return nodes[at + 1] == 0;
    }
    true
}

// The rows of the encoding that begins at a place, those of its windows not counted; none where there is no encoding.
pub fn rows_at(nodes: &[u32], at: usize) -> u32
    requires { AskAt nodes.now at }
    ensures { SecondRows nodes.now at result }
{
    if at < nodes.len() {
        return nodes[at];
    }
    0
}

// The rows of an entry of the special table: one for each of its members.
pub fn rows_of_entry(entries: &[u32], entry: u32) -> u32
    requires { entry < length entries.now / entry_width }
    ensures { result ≡ (members_of entries.now entry).count }
{
    let members = template_entries::members_of(entries, entry as usize);
    members.count
}

// The rows of what a step joins, from those of the two encodings.
pub fn rows_of(entries: &[u32], step: Step, first: u32, second: u32) -> u32
    requires { EntryThere entries.now step }
    ensures { result ≡ step_rows entries.now first second step }
{
    match step {
        Step::First(_) => first,
        Step::Second(_) => second,
        Step::Special(_, entry) => rows_of_entry(entries, entry),
    }
}

// The rows of what the steps give of encodings without windows.
pub fn rows_of_steps(
    nodes: &[u32],
    second: usize,
    entries: &[u32],
    steps: &[u32],
    count: usize,
) -> usize
    requires { AskSteps nodes.now second entries.now steps.now count }
    ensures { AddsRows nodes.now second entries.now steps.now count result }
{
    let of_first = rows_at(nodes, 0);
    let of_second = rows_at(nodes, second);
    let mut rows: usize = 0;
    for i in 0..count {
        let step = process_steps::step_at(steps, i);
        rows += rows_of(entries, step, of_first, of_second) as usize;
    }
    rows
}
