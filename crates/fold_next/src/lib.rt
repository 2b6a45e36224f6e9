// What comes next in a fold (document 01, `merge`): one encoding, or a run of them that is joined at once.
#![tactic(auto)]

ghost use Rattle.fold_next.specs.Promises.{AskNext, FoldsNext};
ghost use Rattle.record.specs.Tree.{Encoding as Tree, Forest};

use join_view::View;
use record::{Encoding, Spot};

// The next of the batch joined to the encoding in the output: if that has windows, the whole run of encodings without windows that
// begins at `at`, so that it is copied once for the run; else one. Returns the spot after it.
pub fn fold_next(
    nodes: &[u32],
    rows: &[u32],
    at: Spot,
    growing: bool,
    out_nodes: &mut [u32],
    out_rows: &mut [u32],
    working_nodes: &mut [u32],
    working_rows: &mut [u32],
) -> Spot
    requires { (S : Tree) × (left : Forest) × AskNext S left nodes.now rows.now at growing out_nodes.old
        out_rows.old working_nodes.old working_rows.old }
    ensures { FoldsNext nodes.now rows.now at growing out_nodes.old
        out_rows.old working_nodes.old working_rows.old result out_nodes.new
        out_rows.new }
{
    let i = at.node;
    let j = at.row;
    if out_nodes[1] != 0 {
        let run = fold_run::run_from(nodes, i);
        if run.nodes > 0 {
            let node = i + run.nodes * Encoding::NODE_WIDTH;
            let row = j + run.rows * Encoding::ROW_WIDTH;
            let next = Spot { node, row };
            fold_join::join_run(
                nodes,
                rows,
                at,
                next,
                growing,
                out_nodes,
                out_rows,
                working_nodes,
                working_rows,
            );
            return next;
        }
    }
    let own = record_extent::measure(nodes, i, 1);
    fold_step::fold_step(
        nodes,
        rows,
        at,
        View::Plain,
        growing,
        out_nodes,
        out_rows,
        working_nodes,
        working_rows,
    );
    Spot {
        node: i + own.nodes * Encoding::NODE_WIDTH,
        row: j + own.rows * Encoding::ROW_WIDTH,
    }
}
