// The step of a fold by way of the working store, where windows are joined (document 01, `merge`).
#![tactic(auto)]

ghost use Rattle.fold_over.specs.Promises.{AskStep, WritesStep};

use join_view::View;
use record::Spot;

// The encoding at p joined to the one in the output, by way of the working store.
pub fn join_over(
    nodes: &[u32],
    rows: &[u32],
    p: Spot,
    view: View,
    growing: bool,
    out_nodes: &mut [u32],
    out_rows: &mut [u32],
    working_nodes: &mut [u32],
    working_rows: &mut [u32],
)
    requires { AskStep nodes.now rows.now p view growing out_nodes.old out_rows.old
        working_nodes.old working_rows.old }
    ensures { WritesStep nodes.now rows.now p view growing out_nodes.old
        out_rows.old out_nodes.new out_rows.new }
{
    let top = Spot { node: 0, row: 0 };
    let end = join_write::join_nodes(
        out_nodes,
        out_rows,
        top,
        nodes,
        rows,
        p,
        view,
        growing,
        working_nodes,
        working_rows,
        top,
    );
    lists::copy(working_nodes, 0, end.node, out_nodes, 0);
    lists::copy(working_rows, 0, end.row, out_rows, 0);
}
