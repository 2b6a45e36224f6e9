// Encodings that are stored, padded, where the result has room (document 01, modules 3 and 6).
#![tactic(auto)]

ghost use Rattle.pad_write.specs.Padded.{padded};
ghost use Rattle.record.specs.Outcome.{in_room, Writes};
ghost use Rattle.record.specs.Tree.{Forest};
ghost use Rattle.record.specs.WellFormed.{Stores};

use cut_plan::Direction;
use pad_rows::PadToken;
use record::{Encoding, Refusal, Written};

// The encodings that are stored, padded. The Rust leaves an empty batch at once, whatever the target.
pub fn pad_stored(
    nodes: &[u32],
    rows: &[u32],
    target: u64,
    token: PadToken,
    direction: Direction,
    out_nodes: &mut [u32],
    out_rows: &mut [u32],
) -> Result<Written, Refusal>
    requires { (f : Forest) × Stores nodes.now rows.now f }
    ensures { (f : Forest) → Stores nodes.now rows.now f → Writes
        (in_room out_nodes.old out_rows.old (padded target token direction f)) result
        out_nodes.old out_rows.old out_nodes.new out_rows.new }
{
    if nodes.len() == 0 {
        return Ok(Written { nodes: 0, rows: 0 });
    }
    if target > Encoding::MOST_ROWS as u64 {
        return Err(Refusal::NoRoom);
    }
    let length = target as u32;
    let total = pad_length::padded_rows(nodes, length);
    if total > Encoding::MOST_ROWS {
        return Err(Refusal::NoRoom);
    }
    if out_nodes.len() < nodes.len() {
        return Err(Refusal::NoRoom);
    }
    if out_rows.len() < total * Encoding::ROW_WIDTH {
        return Err(Refusal::NoRoom);
    }
    pad_write::write_padded(nodes, rows, length, token, direction, out_nodes, out_rows);
    Ok(Written {
        nodes: nodes.len() / Encoding::NODE_WIDTH,
        rows: total,
    })
}
