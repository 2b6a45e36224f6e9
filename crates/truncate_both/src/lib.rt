// Two encodings where they stand, each cut and written, one after the other (document 01, "Truncate pair").
#![tactic(auto)]

ghost use Rattle.truncate_both.specs.Promises.{AskTwo, MakesTwo};

use cut_plan::Direction;
use record::Encoding;
use record_extent::Extent;

// The two encodings at the front, which hold `own` and `other`, cut: the first holds `kept` then, and the second is
// written after that.
pub fn write_two(
    nodes: &[u32],
    rows: &[u32],
    own: Extent,
    other: Extent,
    kept: Extent,
    n: u32,
    m: u32,
    stride: u32,
    direction: Direction,
    out_nodes: &mut [u32],
    out_rows: &mut [u32],
)
    requires { AskTwo nodes.now rows.now own other kept n m stride out_nodes.old out_rows.old }
    ensures { MakesTwo nodes.now rows.now own other kept n m stride direction
        out_nodes.old out_rows.old out_nodes.new out_rows.new }
{
    truncate_write::write_truncated(
        nodes, 0, rows, 0, own, n, stride, direction, out_nodes, 0, out_rows, 0,
    );
    truncate_write::write_truncated(
        nodes,
        own.nodes * Encoding::NODE_WIDTH,
        rows,
        own.rows * Encoding::ROW_WIDTH,
        other,
        m,
        stride,
        direction,
        out_nodes,
        kept.nodes * Encoding::NODE_WIDTH,
        out_rows,
        kept.rows * Encoding::ROW_WIDTH,
    );
}
