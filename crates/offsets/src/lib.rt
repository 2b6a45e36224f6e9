// Offsets converted from bytes to characters of a text, and back (document 02, request 01).
#![tactic(auto)]

ghost use Rattle.record.specs.Read.{read};
ghost use Rattle.record.specs.Outcome.{Writes};
ghost use Rattle.offsets_trees.specs.declared.Way.TheVariants.{ToCharacters, ToBytes};
ghost use Rattle.offsets.specs.Outcomes.{offsets_outcome};

use offsets_trees::Way;
use record::{Encoding, Refusal, Written};

// The batch with both offsets of every row in characters, written to the output. Refused with 1, 16, 17 or 18 by the first row
// concerned, 2.
pub fn bytes_to_chars(
    nodes: &[u32],
    rows: &[u32],
    text: &[u8],
    out_nodes: &mut [u32],
    out_rows: &mut [u32],
) -> Result<Written, Refusal>
    ensures { Writes
        (offsets_outcome ToCharacters (read nodes.now rows.now) text.now
        out_nodes.old out_rows.old)
        result out_nodes.old out_rows.old
        out_nodes.new out_rows.new }
{
    convert_batch(Way::ToCharacters, nodes, rows, text, out_nodes, out_rows)
}

// The way back: both offsets of every row in bytes. Refused with 1, 16, 17, 2.
pub fn chars_to_bytes(
    nodes: &[u32],
    rows: &[u32],
    text: &[u8],
    out_nodes: &mut [u32],
    out_rows: &mut [u32],
) -> Result<Written, Refusal>
    ensures { Writes
        (offsets_outcome ToBytes (read nodes.now rows.now) text.now
        out_nodes.old out_rows.old)
        result out_nodes.old out_rows.old
        out_nodes.new out_rows.new }
{
    convert_batch(Way::ToBytes, nodes, rows, text, out_nodes, out_rows)
}

fn convert_batch(
    way: Way,
    nodes: &[u32],
    rows: &[u32],
    text: &[u8],
    out_nodes: &mut [u32],
    out_rows: &mut [u32],
) -> Result<Written, Refusal>
    ensures { Writes
        (offsets_outcome way (read nodes.now rows.now) text.now
        out_nodes.old out_rows.old)
        result out_nodes.old out_rows.old
        out_nodes.new out_rows.new }
{
    let total = offsets_verdict::judge(way, nodes, rows, text)?;
    if out_nodes.len() < nodes.len() {
        return Err(Refusal::NoRoom);
    }
    if out_rows.len() < rows.len() {
        return Err(Refusal::NoRoom);
    }
    offsets_batch::write_converted(way, nodes, rows, text, total, out_nodes, out_rows);
    Ok(Written {
        nodes: nodes.len() / Encoding::NODE_WIDTH,
        rows: rows.len() / Encoding::ROW_WIDTH,
    })
}
