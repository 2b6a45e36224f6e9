// A fold, one encoding after another (document 01, `merge`): each is joined to the one in the output.
#![tactic(auto)]

ghost use Rattle.fold_each.specs.Promises.{AskFold, WritesFold};

use join_view::View;
use record::{Encoding, Spot};

// The fold of the batch, into the output.
pub fn fold_each(
    nodes: &[u32],
    rows: &[u32],
    growing: bool,
    out_nodes: &mut [u32],
    out_rows: &mut [u32],
    working_nodes: &mut [u32],
    working_rows: &mut [u32],
)
    requires { AskFold nodes.now rows.now growing out_nodes.old out_rows.old working_nodes.old
        working_rows.old }
    ensures { WritesFold nodes.now rows.now growing out_nodes.old
        out_rows.old out_nodes.new out_rows.new }
{
    fold_append::start(out_nodes);
    let mut i = 0;
    let mut j = 0;
    // A while: the next encoding is as many nodes on as this one has, and a range's step is 1.
    while i < nodes.len() {
        let own = record_extent::measure(nodes, i, 1);
        fold_step::fold_step(
            nodes,
            rows,
            Spot { node: i, row: j },
            View::Plain,
            growing,
            out_nodes,
            out_rows,
            working_nodes,
            working_rows,
        );
        i += own.nodes * Encoding::NODE_WIDTH;
        j += own.rows * Encoding::ROW_WIDTH;
    }
}
