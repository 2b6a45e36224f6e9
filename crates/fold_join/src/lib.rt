// A run of a fold, joined at once (document 01, `merge`): it is folded by itself and joined once to the encoding in the output, whose
// windows are then copied once for the whole run and not for each encoding of it.
#![tactic(auto)]

ghost use Rattle.std.specs.Prelude.{List};
ghost use Rattle.fold_join.specs.Promises.{AskRun, WritesRun};
ghost use Rattle.record.specs.Tree.{Encoding as Tree};

use record::{Encoding, Spot};

// The run from p to `end`, folded and joined to the encoding in the output. There is a place for the one node of its fold here,
// and for its rows in the output, after those that are there: they are part of the join, which takes that room in the end.
pub fn join_run(
    nodes: &[u32],
    rows: &[u32],
    p: Spot,
    end: Spot,
    growing: bool,
    out_nodes: &mut [u32],
    out_rows: &mut [u32],
    working_nodes: &mut [u32],
    working_rows: &mut [u32],
)
    requires { (S : Tree) × (Ps : List Tree) × AskRun S Ps nodes.now rows.now p end growing out_nodes.old out_rows.old
        working_nodes.old working_rows.old }
    ensures { WritesRun nodes.now rows.now p end growing out_nodes.old
        out_rows.old working_nodes.old working_rows.old out_nodes.new
        out_rows.new }
{
    let i = p.node;
    let j = p.row;
    let i_end = end.node;
    let j_end = end.row;
    let own = record_extent::measure(out_nodes, 0, 1);
    let at = own.rows * Encoding::ROW_WIDTH;
    let mut node = Encoding::empty();
    fold_each::fold_each(
        &nodes[i..i_end],
        &rows[j..j_end],
        growing,
        &mut node,
        &mut out_rows[at..],
        working_nodes,
        working_rows,
    );
    fold_after::join_after(
        &node,
        at,
        growing,
        out_nodes,
        out_rows,
        working_nodes,
        working_rows,
    );
}
