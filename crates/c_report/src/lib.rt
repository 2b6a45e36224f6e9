// The C interface of reports. A report crosses as six numbers: encodings, windows, rows, padding, special, rest. Each function
// returns the number of its refusal, 0 for none, and a refusal leaves what was lent as it was. include/noddrefyr.h is made from
// this file too.
#![tactic(auto)]

ghost use Rattle.std.specs.Prelude.{◌≡◌};
ghost use Rattle.c_crossing.specs.Crossing.{Crosses};
ghost use Rattle.c_report.specs.Reports.{report_in, added_crossed, share_crossed};
ghost use Rattle.record.specs.Read.{read};
ghost use Rattle.report_trees.specs.Report.{add_answer, share_of};

use report_trees::Report;

// A batch added to a report, which is six totals: encodings at the top, windows at every level, rows of both; of these rows those
// with attention 0, those with attention not 0 and special mask not 0, and the rest. An empty report is six zeros.
// Refused with 1, 22.
#[unsafe(no_mangle)]
pub extern "C" fn noddrefyr_report_add(nodes: &[u32], rows: &[u32], report: &mut [u64; 6]) -> u32
    ensures { Crosses
        (added_crossed report.old
        (add_answer (read nodes.now rows.now) (report_in report.old)))
        result report.new }
{
    // A match: `c_crossing::cross` is for numbers of 32 bits, and these have 64.
    match report_batch::report_add(nodes, rows, report_of(report)) {
        Err(why) => why.number(),
        Ok(after) => {
            *report = [
                after.encodings,
                after.windows,
                after.rows,
                after.padding,
                after.special,
                after.rest,
            ];
            0
        }
    }
}

// The rows with attention 0 over all rows of a report, in lowest terms; 0 of 0 when there are no rows. Never refused.
#[unsafe(no_mangle)]
pub extern "C" fn noddrefyr_report_share(report: &[u64; 6], share: &mut [u64; 2]) -> u32
    ensures { Crosses (share_crossed (share_of (report_in report.now))) result share.new }
{
    let lowest = report_share::report_share(report_of(report));
    *share = [lowest.part, lowest.whole];
    0
}

// The report of six numbers.
fn report_of(report: &[u64; 6]) -> Report
    ensures { result ≡ report_in report.now }
{
    Report {
        encodings: report[0],
        windows: report[1],
        rows: report[2],
        padding: report[3],
        special: report[4],
        rest: report[5],
    }
}
