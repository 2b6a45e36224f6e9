// One report over many batches (document 02, request 03): its six totals.
#![tactic(auto)]

ghost use Rattle.std.specs.Prelude.{◌≡◌};
ghost use Rattle.report_trees.specs.Report.{empty_report};

// Totals over all batches added: top encodings, windows at every level, the rows of both together; and of the rows those with
// attention 0, those with attention not 0 and special mask not 0, and the rest.
#[derive(Clone, Copy)]
pub struct Report {
    pub encodings: u64,
    pub windows: u64,
    pub rows: u64,
    pub padding: u64,
    pub special: u64,
    pub rest: u64,
}

impl Report {
    // The report of no batch.
    pub fn empty() -> Self
        ensures { result ≡ empty_report }
    {
        Self {
            encodings: 0,
            windows: 0,
            rows: 0,
            padding: 0,
            special: 0,
            rest: 0,
        }
    }
}
