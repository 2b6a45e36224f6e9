// What a replay program prints: the cases on which an answer differs from the stored one, the lines that cannot be read, and at
// the end a count: `cases` are those that were run, `bad` the lines that were not.
#![tactic(auto)]

ghost use Rattle.std.specs.Prelude.{◌≡◌};
ghost use Rattle.replay_counts.specs.Counting.{more, Counted, Kept, Tallied};

use input_lines::Unread;
use replay_answers::Outcome;

// How many lines have ended, and what they were; and whether a write failed, after which nothing is printed.
#[derive(Clone, Copy)]
pub struct Progress {
    pub lines: u64,
    pub cases: u64,
    pub differ: u64,
    pub bad: u64,
    pub failed: bool,
}

// Before any line has ended.
pub fn start() -> Progress
    ensures lines { result.lines ≡ 0 }
    ensures tallied { Tallied result }
{
    Progress {
        lines: 0,
        cases: 0,
        differ: 0,
        bad: 0,
        failed: false,
    }
}

// Counts what a line turned out to be, and prints it unless its answers are the same.
pub fn counted(rt: &(impl Print + Eprint), before: Progress, outcome: Outcome) -> Progress
    ensures counted { Counted before outcome result }
    ensures tallied { Tallied before → Tallied result }
{
    let lines = one_more(before.lines);
    let failed = !print_outcome(rt, lines, outcome);
    let mut progress = before;
    progress.lines = lines;
    progress.failed = failed;
    match outcome {
        Outcome::Skipped => {}
        Outcome::Same => {
            progress.cases = one_more(before.cases);
        }
        Outcome::Differs => {
            progress.cases = one_more(before.cases);
            progress.differ = one_more(before.differ);
        }
        Outcome::Bad => {
            progress.bad = one_more(before.bad);
        }
    }
    progress
}

// Whether it could be printed.
fn print_outcome(rt: &(impl Print + Eprint), line: u64, outcome: Outcome) -> bool {
    match outcome {
        Outcome::Skipped | Outcome::Same => true,
        Outcome::Differs => print_line(rt, line, b" differs\n"),
        Outcome::Bad => print_line(rt, line, b" bad\n"),
    }
}

// A count that stays at the largest number, where one more would wrap.
fn one_more(count: u64) -> u64
    ensures { result ≡ more count }
{
    count.saturating_add(1)
}

fn print_line(rt: &(impl Print + Eprint), number: u64, what: &[u8]) -> bool {
    print_count(rt, b"line ", number) && output::print(rt, what).all
}

// Prints the counts, once all lines have ended: not if a read or a write failed, of which standard error has a line.
pub fn print_counts(rt: &(impl Print + Eprint), progress: Progress, unread: Unread) -> Progress
    ensures kept { Kept progress result }
    ensures tallied { Tallied progress → Tallied result }
{
    if unread.failed || progress.failed {
        return progress;
    }
    Progress {
        failed: !print_all(rt, progress),
        ..progress
    }
}

fn print_all(rt: &(impl Print + Eprint), progress: Progress) -> bool {
    print_count(rt, b"cases ", progress.cases)
        && print_count(rt, b", differ ", progress.differ)
        && print_count(rt, b", bad ", progress.bad)
        && output::print(rt, b"\n").all
}

fn print_count(rt: &(impl Print + Eprint), label: &[u8], count: u64) -> bool {
    output::print(rt, label).all && output::print_number(rt, count).all
}
