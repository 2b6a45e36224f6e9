// Two encodings, each cut to a number of rows, one after the other (document 01, "Truncate pair").
#![tactic(auto)]

ghost use Rattle.std.specs.Prelude.{◌≡◌};
ghost use Rattle.truncate_two.specs.Promises.{Small, AskPair, BecomesPair, together};
ghost use Rattle.truncate_two.specs.CutBoth.{cut_both_outcome};

use cut_plan::Direction;
use record::{Encoding, Refusal, Written};
use record_extent::Extent;

// The two encodings that the record stores, cut to n and m rows.
pub fn cut_two(
    nodes: &[u32],
    rows: &[u32],
    own: Extent,
    n: u32,
    m: u32,
    stride: u32,
    direction: Direction,
    out_nodes: &mut [u32],
    out_rows: &mut [u32],
) -> Result<Written, Refusal>
    requires { AskPair nodes.now rows.now own }
    ensures { BecomesPair (cut_both_outcome out_nodes.old out_rows.old n m stride direction)
        nodes.now rows.now own result out_nodes.old out_rows.old
        out_nodes.new out_rows.new }
{
    let i = own.nodes * Encoding::NODE_WIDTH;
    let first = nodes[0];
    let second = nodes[i];
    if truncate_size::stride_refused(first, n, stride) {
        return Err(Refusal::Stride);
    }
    if truncate_size::stride_refused(second, m, stride) {
        return Err(Refusal::Stride);
    }
    let other = record_extent::measure(nodes, i, 1);
    let kept = truncate_size::size_after(first, n, stride, own);
    let size = both(kept, truncate_size::size_after(second, m, stride, other));
    if !record_extent::has_room(size, out_nodes.len(), out_rows.len()) {
        return Err(Refusal::NoRoom);
    }
    truncate_both::write_two(
        nodes, rows, own, other, kept, n, m, stride, direction, out_nodes, out_rows,
    );
    Ok(Written {
        nodes: size.nodes,
        rows: size.rows,
    })
}

// How much two encodings hold together.
fn both(first: Extent, second: Extent) -> Extent
    requires { Small first × Small second }
    ensures { result ≡ together first second }
{
    Extent {
        nodes: first.nodes + second.nodes,
        rows: first.rows + second.rows,
        levels: first.levels.max(second.levels),
    }
}
