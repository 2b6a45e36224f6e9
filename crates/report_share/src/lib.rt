// The share of padding in a report (document 02, request 03).
#![tactic(auto)]

ghost use Rattle.std.specs.Prelude.{◌≡◌};
ghost use Rattle.report_trees.specs.Report.{share_of};

use fractions::Fraction;
use report_trees::Report;

// The rows with attention 0 over all rows, in lowest terms; 0 of 0 when there are no rows.
pub fn report_share(report: Report) -> Fraction
    ensures { result ≡ share_of report }
{
    fractions::lowest(report.padding, report.rows)
}
