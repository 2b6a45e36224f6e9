// Replays the stored cases of the operations on reports, each called through the C interface (`replay_program` says what a case is).
// The numbers of a report have 64 bits, and stand in a case as their low and their high 32 bits. The line above each function is its
// whole case. To add one: its number, such a function, an arm of `replay`, and its cases, which the comparison makes.
#![tactic(auto)]

use replay_answers::Outcome;

// Operation numbers, the first number of each case.
const REPORT_ADD: u32 = 29;

const REPORT_SHARE: u32 = 30;

// How many halves a report has.
const HALVES: usize = 12;

// What stands in each lent number before a call, where it is not the case that says it.
const BEFORE: u64 = 7;

fn main(rt: HostRuntime) {
    replay_program::replay_all(&rt, replay);
}

// `rest` is what follows the two lists in the case.
fn replay(operation: u32, first: &[u32], second: &[u32], rest: &[u32]) -> Outcome {
    match operation {
        REPORT_ADD => report_add(first, second, rest),
        REPORT_SHARE => report_share(first, second, rest),
        _ => Outcome::Bad,
    }
}

// `29 nodes rows report refusal report-after`
fn report_add(nodes: &[u32], rows: &[u32], rest: &[u32]) -> Outcome {
    let part = replay_cases::list_at(rest, 0);
    let start = part.start;
    let end = part.end;
    if end - start != HALVES {
        return Outcome::Bad;
    }
    let mut report = report_at(&rest[start..end]);
    let refusal = c_report::noddrefyr_report_add(nodes, rows, &mut report);
    same_report(refusal, &report, rest, end)
}

// Whether a case is, from a place on, a refusal and the halves of a report.
fn same_report(refusal: u32, report: &[u64; 6], case: &[u32], at: usize) -> Outcome {
    let halves = [
        replay_halves::low(report[0]),
        replay_halves::high(report[0]),
        replay_halves::low(report[1]),
        replay_halves::high(report[1]),
        replay_halves::low(report[2]),
        replay_halves::high(report[2]),
        replay_halves::low(report[3]),
        replay_halves::high(report[3]),
        replay_halves::low(report[4]),
        replay_halves::high(report[4]),
        replay_halves::low(report[5]),
        replay_halves::high(report[5]),
    ];
    replay_answers::answered(refusal, &halves, case, at)
}

// `30 report nothing refusal share`
fn report_share(report: &[u32], nothing: &[u32], rest: &[u32]) -> Outcome {
    if report.len() != HALVES {
        return Outcome::Bad;
    }
    if nothing.len() != 0 {
        return Outcome::Bad;
    }
    let mut share = [BEFORE; 2];
    let refusal = c_report::noddrefyr_report_share(&report_at(report), &mut share);
    same_share(refusal, &share, rest)
}

fn same_share(refusal: u32, share: &[u64; 2], case: &[u32]) -> Outcome {
    let halves = [
        replay_halves::low(share[0]),
        replay_halves::high(share[0]),
        replay_halves::low(share[1]),
        replay_halves::high(share[1]),
    ];
    replay_answers::answered(refusal, &halves, case, 0)
}

// The report of these halves.
fn report_at(halves: &[u32]) -> [u64; 6] {
    [
        replay_halves::number_at(halves, 0, 1),
        replay_halves::number_at(halves, 2, 3),
        replay_halves::number_at(halves, 4, 5),
        replay_halves::number_at(halves, 6, 7),
        replay_halves::number_at(halves, 8, 9),
        replay_halves::number_at(halves, 10, 11),
    ]
}
