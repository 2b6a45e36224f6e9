// The fold of a batch, written: step by step into the output, a run of encodings without windows in one step where the output has
// windows, and what refusal 6 leaves (document 01, `merge`).
#![tactic(auto)]

ghost use Rattle.fold_each.specs.Promises.{AskFold, WritesFold};
ghost use Rattle.fold_write.specs.Promises.{ZeroedAll};
ghost use Rattle.record.specs.Working.{Zeroed};

use record::Spot;

// The fold of the batch, into the output; the working store is zeroed after it.
pub fn write_fold(
    nodes: &[u32],
    rows: &[u32],
    growing: bool,
    out_nodes: &mut [u32],
    out_rows: &mut [u32],
    working_nodes: &mut [u32],
    working_rows: &mut [u32],
)
    requires { AskFold nodes.now rows.now growing out_nodes.old out_rows.old working_nodes.old
        working_rows.old }
    ensures writes_fold { WritesFold nodes.now rows.now growing out_nodes.old
        out_rows.old out_nodes.new out_rows.new }
    ensures zeroed { Zeroed working_nodes.old working_rows.old working_nodes.new
        working_rows.new }
{
    fold_append::start(out_nodes);
    let mut at = Spot { node: 0, row: 0 };
    // A while: how far a turn goes is what it folds, one encoding or a run.
    while at.node < nodes.len() {
        at = fold_next::fold_next(
            nodes,
            rows,
            at,
            growing,
            out_nodes,
            out_rows,
            working_nodes,
            working_rows,
        );
    }
    join_size::zero_both(working_nodes, working_rows);
}

// What an offset that is too large leaves: output and working store all zeros.
pub fn zero_all(
    out_nodes: &mut [u32],
    out_rows: &mut [u32],
    working_nodes: &mut [u32],
    working_rows: &mut [u32],
)
    ensures { ZeroedAll out_nodes.old out_rows.old working_nodes.old
        working_rows.old out_nodes.new out_rows.new working_nodes.new
        working_rows.new }
{
    lists::zero(out_nodes);
    lists::zero(out_rows);
    lists::zero(working_nodes);
    lists::zero(working_rows);
}
