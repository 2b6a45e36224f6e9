// Cutting one encoding to a number of rows (document 01, "Truncate").
#![tactic(auto)]

ghost use Rattle.record.specs.Outcome.{Writes};
ghost use Rattle.record.specs.Read.{read};
ghost use Rattle.truncate.specs.Promises.{AskOne, Becomes};
ghost use Rattle.truncate.specs.Truncate.{cut_outcome, truncate_outcome};

use cut_plan::Direction;
use record::{Refusal, Written};
use record_extent::Extent;

// The one encoding that the record stores, cut.
pub fn cut_one(
    nodes: &[u32],
    rows: &[u32],
    own: Extent,
    max: u32,
    stride: u32,
    direction: Direction,
    out_nodes: &mut [u32],
    out_rows: &mut [u32],
) -> Result<Written, Refusal>
    requires { AskOne nodes.now rows.now own }
    ensures { Becomes (cut_outcome out_nodes.old out_rows.old max stride direction)
        nodes.now rows.now own result out_nodes.old out_rows.old
        out_nodes.new out_rows.new }
{
    let n = nodes[0];
    if truncate_size::stride_refused(n, max, stride) {
        return Err(Refusal::Stride);
    }
    let size = truncate_size::size_after(n, max, stride, own);
    if !record_extent::has_room(size, out_nodes.len(), out_rows.len()) {
        return Err(Refusal::NoRoom);
    }
    truncate_write::write_truncated(
        nodes, 0, rows, 0, own, max, stride, direction, out_nodes, 0, out_rows, 0,
    );
    Ok(Written {
        nodes: size.nodes,
        rows: size.rows,
    })
}

// One encoding, cut to max rows: the kept ones and, as its windows, the others, neighbours sharing stride rows.
// Refuses 1 a malformed record, 3 a stride of max or more where rows are cut off, 2 no room.
pub fn truncate(
    nodes: &[u32],
    rows: &[u32],
    max: u32,
    stride: u32,
    direction: Direction,
    out_nodes: &mut [u32],
    out_rows: &mut [u32],
) -> Result<Written, Refusal>
    ensures { Writes (truncate_outcome out_nodes.old out_rows.old max stride direction
        (read nodes.now rows.now)) result out_nodes.old out_rows.old
        out_nodes.new out_rows.new }
{
    if !record_check::is_one(nodes, rows) {
        return Err(Refusal::MalformedRecord);
    }
    let own = record_extent::measure(nodes, 0, 1);
    cut_one(
        nodes, rows, own, max, stride, direction, out_nodes, out_rows,
    )
}
