// Join of two encodings (document 01, "Join"): checked, sized, and then written.
#![tactic(auto)]

ghost use Rattle.join.specs.Demand.{Called};

use join_view::View;
use record::{Refusal, Spot, Written};

// The first encoding joined with the second.
// Refuses 1 a malformed record, 2 no room, 6 an offset that would pass 32 bits, which leaves the output all zeros.
pub fn merge_with(
    first_nodes: &[u32],
    first_rows: &[u32],
    second_nodes: &[u32],
    second_rows: &[u32],
    growing: bool,
    out_nodes: &mut [u32],
    out_rows: &mut [u32],
) -> Result<Written, Refusal>
    ensures { Called growing first_nodes.now first_rows.now second_nodes.now
        second_rows.now out_nodes.old out_rows.old out_nodes.new
        out_rows.new result }
{
    if !record_check::is_one(first_nodes, first_rows) {
        return Err(Refusal::MalformedRecord);
    }
    if !record_check::is_one(second_nodes, second_rows) {
        return Err(Refusal::MalformedRecord);
    }
    let size = join_size::join_size(first_nodes, second_nodes);
    if !record_room::has_room(size, out_nodes.len(), out_rows.len()) {
        return Err(Refusal::NoRoom);
    }
    if !join_offsets::join_fits(first_nodes, first_rows, second_nodes, second_rows, growing) {
        join_size::zero_both(out_nodes, out_rows);
        return Err(Refusal::OffsetTooLarge);
    }
    let top = Spot { node: 0, row: 0 };
    join_write::join_nodes(
        first_nodes,
        first_rows,
        top,
        second_nodes,
        second_rows,
        top,
        View::Plain,
        growing,
        out_nodes,
        out_rows,
        top,
    );
    Ok(Written {
        nodes: size.nodes,
        rows: size.rows,
    })
}
