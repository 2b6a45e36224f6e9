// What C calls of `c_report`: each function promises what it promises there.
ghost use Rattle.c_crossing.specs.Crossing.{Crosses};
ghost use Rattle.c_report.specs.Reports.{report_in, added_crossed, share_crossed};
ghost use Rattle.record.specs.Read.{read};
ghost use Rattle.report_trees.specs.Report.{add_answer, share_of};

// A batch added to a report, which is six totals: encodings at the top, windows at every level, rows of both; of these rows those
// with attention 0, those with attention not 0 and special mask not 0, and the rest. An empty report is six zeros.
// Refused with 1, 22.
#[unsafe(no_mangle)]
pub extern "C" fn noddrefyr_report_add(nodes: &[u32], rows: &[u32], report: &mut [u64; 6]) -> u32
    ensures { Crosses
        (added_crossed report.old
        (add_answer (read nodes.now rows.now) (report_in report.old)))
        result report.new }
{
    c_report::noddrefyr_report_add(nodes, rows, report)
}

// The rows with attention 0 over all rows of a report, in lowest terms; 0 of 0 when there are no rows. Never refused.
#[unsafe(no_mangle)]
pub extern "C" fn noddrefyr_report_share(report: &[u64; 6], share: &mut [u64; 2]) -> u32
    ensures { Crosses (share_crossed (share_of (report_in report.now))) result share.new }
{
    c_report::noddrefyr_report_share(report, share)
}
