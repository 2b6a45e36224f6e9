// The step of a fold whose second operand has its rows in the output (document 01, `merge`), by way of the working store.
#![tactic(auto)]

ghost use Rattle.fold_over.specs.Promises.{AskStep, WritesStep};
ghost use Rattle.record.specs.Standing.{spot};

use join_view::View;
use record::Spot;

// The encoding in the output joined with the one whose node is lent and whose rows stand in the output too, from `at` on, by way
// of the working store. Not `join_over` of fold_over, to which the second's rows are lent beside the output.
pub fn join_after(
    node: &[u32],
    at: usize,
    growing: bool,
    out_nodes: &mut [u32],
    out_rows: &mut [u32],
    working_nodes: &mut [u32],
    working_rows: &mut [u32],
)
    requires { AskStep node.now out_rows.old (spot 0 at) View.Plain growing out_nodes.old out_rows.old
        working_nodes.old working_rows.old }
    ensures { WritesStep node.now out_rows.old (spot 0 at) View.Plain growing
        out_nodes.old out_rows.old out_nodes.new out_rows.new }
{
    let top = Spot { node: 0, row: 0 };
    let end = join_write::join_nodes(
        out_nodes,
        out_rows,
        top,
        node,
        out_rows,
        Spot { node: 0, row: at },
        View::Plain,
        growing,
        working_nodes,
        working_rows,
        top,
    );
    lists::copy(working_nodes, 0, end.node, out_nodes, 0);
    lists::copy(working_rows, 0, end.row, out_rows, 0);
}
