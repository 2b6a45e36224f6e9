// The step of a fold (document 01, `merge`): the encoding in the output joined with one more, seen through a view.
#![tactic(auto)]

ghost use Rattle.fold_over.specs.Promises.{AskStep, WritesStep};

use join_view::View;
use record::Spot;

// The encoding at p joined to the one in the output. Where neither has windows its rows are appended in place.
pub fn fold_step(
    nodes: &[u32],
    rows: &[u32],
    p: Spot,
    view: View,
    growing: bool,
    out_nodes: &mut [u32],
    out_rows: &mut [u32],
    working_nodes: &mut [u32],
    working_rows: &mut [u32],
)
    requires { AskStep nodes.now rows.now p view growing out_nodes.old out_rows.old
        working_nodes.old working_rows.old }
    ensures { WritesStep nodes.now rows.now p view growing out_nodes.old
        out_rows.old out_nodes.new out_rows.new }
{
    let i = p.node;
    if out_nodes[1] == 0 {
        if nodes[i + 1] == 0 {
            fold_append::append_node(nodes, rows, p, view, growing, out_nodes, out_rows);
            return;
        }
    }
    fold_over::join_over(
        nodes,
        rows,
        p,
        view,
        growing,
        out_nodes,
        out_rows,
        working_nodes,
        working_rows,
    );
}
