// A batch added to a report (document 02, request 03).
#![tactic(auto)]

ghost use Rattle.std.specs.Prelude.{◌≡◌, MatchOption};
ghost use Rattle.record.specs.Read.{read};
ghost use Rattle.report_trees.specs.Report.{summed, WithinTotals, add_answer};

use record::{Encoding, Refusal};
use report_trees::Report;

// A batch added to a report: refused with 1, then 22.
pub fn report_add(nodes: &[u32], rows: &[u32], report: Report) -> Result<Report, Refusal>
    ensures { result ≡ add_answer (read nodes.now rows.now) report }
{
    let encodings = record_check::check_batch(nodes, rows)?;
    let all = nodes.len() / Encoding::NODE_WIDTH;
    let count = rows.len() / Encoding::ROW_WIDTH;
    let kinds = report_rows::count_kinds(rows, count);
    let batch = Report {
        encodings: encodings as u64,
        windows: (all - encodings) as u64,
        rows: count as u64,
        padding: kinds.padding as u64,
        special: kinds.special as u64,
        rest: kinds.rest as u64,
    };
    total(report, batch).ok_or(Refusal::TotalTooLarge)
}

// Each total of both, unless one is too large.
fn total(report: Report, batch: Report) -> Option<Report>
    ensures { MatchOption
        result
        (WithinTotals (summed report batch) → ⊥)
        (λ t. (t ≡ summed report batch) × WithinTotals t) }
{
    Some(Report {
        encodings: report.encodings.checked_add(batch.encodings)?,
        windows: report.windows.checked_add(batch.windows)?,
        rows: report.rows.checked_add(batch.rows)?,
        padding: report.padding.checked_add(batch.padding)?,
        special: report.special.checked_add(batch.special)?,
        rest: report.rest.checked_add(batch.rest)?,
    })
}
