// An encoding, cut and written: as it is, below an empty one, or its windows (document 01, "Truncate").
#![tactic(auto)]

ghost use Rattle.std.specs.Prelude.{[], ◌∷◌, ◌+◌};
ghost use Rattle.cut_windows.specs.Made.{plain};
ghost use Rattle.record.specs.Flat.{node_width};
ghost use Rattle.truncate_write.specs.Promises.{Makes, AskCopy, AskTruncating};
ghost use Rattle.truncate_write.specs.Truncated.{truncated};

use cut_plan::{Decision, Direction};
use record::Encoding;
use record_extent::Extent;

// The encoding at i and j as it is.
fn copy_encoding(
    nodes: &[u32],
    i: usize,
    rows: &[u32],
    j: usize,
    own: Extent,
    out_nodes: &mut [u32],
    a: usize,
    out_rows: &mut [u32],
    b: usize,
)
    requires { AskCopy nodes.now rows.now i j own out_nodes.old a out_rows.old b }
    ensures { Makes (λ E. E) nodes.now rows.now i j own out_nodes.old a
        out_rows.old b out_nodes.new out_rows.new }
{
    lists::copy(nodes, i, own.nodes * Encoding::NODE_WIDTH, out_nodes, a);
    lists::copy(rows, j, own.rows * Encoding::ROW_WIDTH, out_rows, b);
}

// The encoding at i and j as the only window of an empty one.
fn write_emptied(
    nodes: &[u32],
    i: usize,
    rows: &[u32],
    j: usize,
    own: Extent,
    out_nodes: &mut [u32],
    a: usize,
    out_rows: &mut [u32],
    b: usize,
)
    requires { AskCopy nodes.now rows.now i j own out_nodes.old (a + node_width) out_rows.old b }
    ensures { Makes (λ E. plain [] (E ∷ [])) nodes.now rows.now i j own out_nodes.old
        a out_rows.old b out_nodes.new out_rows.new }
{
    cut_windows::write_head(out_nodes, a, 0, 1);
    let below = a + Encoding::NODE_WIDTH;
    copy_encoding(nodes, i, rows, j, own, out_nodes, below, out_rows, b);
}

// The encoding at i and j, cut.
pub fn write_truncated(
    nodes: &[u32],
    i: usize,
    rows: &[u32],
    j: usize,
    own: Extent,
    max: u32,
    stride: u32,
    direction: Direction,
    out_nodes: &mut [u32],
    a: usize,
    out_rows: &mut [u32],
    b: usize,
)
    requires { AskTruncating nodes.now rows.now i j own max stride out_nodes.old a out_rows.old b }
    ensures { Makes (truncated max stride direction) nodes.now rows.now i j own
        out_nodes.old a out_rows.old b out_nodes.new out_rows.new }
{
    let n = nodes[i];
    match cut_plan::decide(n, max, stride) {
        Decision::Whole => copy_encoding(nodes, i, rows, j, own, out_nodes, a, out_rows, b),
        Decision::Emptied => write_emptied(nodes, i, rows, j, own, out_nodes, a, out_rows, b),
        // Who asks has refused it before.
        Decision::StrideRefused => {}
        Decision::Windows(count) => {
            cut_windows::write_cut(
                rows, j, n, max, stride, direction, count, out_nodes, a, out_rows, b,
            )
        }
    }
}
