// Whether a fold can be done, and how much it takes: all that is decided before anything is written (document 01, `merge`).
#![tactic(auto)]

ghost use Rattle.fold_check.specs.Promises.{AskFoldSize, SizesFold, DecidesFold};

use record::{Encoding, Refusal, Written};
use record_room::Size;

// What the fold of a batch will write, with so many numbers of room in the output and in the working store; or the refusal that
// comes first: 1 a malformed record, 2 no room in the output or in the working store, 6 an offset that would pass 32 bits, which
// leaves zeros.
pub fn decide(
    nodes: &[u32],
    rows: &[u32],
    growing: bool,
    node_room: usize,
    row_room: usize,
    working_node_room: usize,
    working_row_room: usize,
) -> Result<Written, Refusal>
    ensures { DecidesFold growing nodes.now rows.now node_room row_room working_node_room
        working_row_room result }
{
    let count = record_check::check_batch(nodes, rows)?;
    let size = fold_size(nodes, rows, count);
    if !record_room::has_room(size, node_room, row_room) {
        return Err(Refusal::NoRoom);
    }
    if !record_room::has_room(size, working_node_room, working_row_room) {
        return Err(Refusal::NoRoom);
    }
    if !join_offsets::fold_fits(nodes, rows, growing) {
        return Err(Refusal::OffsetTooLarge);
    }
    Ok(Written {
        nodes: size.nodes,
        rows: size.rows,
    })
}

// What the fold of a batch of `count` encodings takes. Where none of them has windows it is one node with all the rows.
fn fold_size(nodes: &[u32], rows: &[u32], count: usize) -> Size
    requires { AskFoldSize nodes.now rows.now count }
    ensures { SizesFold nodes.now rows.now result }
{
    if nodes.len() == count * Encoding::NODE_WIDTH {
        return Size {
            fits: true,
            nodes: 1,
            rows: rows.len() / Encoding::ROW_WIDTH,
        };
    }
    join_size::size_of(fold_levels::folded_profile(nodes))
}
