// Padding: rows added to encodings, their windows included, until each has a given number (document 01, modules 3 and 6).
#![tactic(auto)]

ghost use Rattle.std.specs.Prelude.{length};
ghost use Rattle.pad.specs.Padding.{pad_outcome, pad_encodings_outcome};
ghost use Rattle.record.specs.Outcome.{Writes};
ghost use Rattle.record.specs.Read.{read};

use cut_plan::Direction;
use pad_length::PaddingStrategy;
use pad_rows::PadToken;
use record::{Refusal, Written};

// One encoding and its windows at every level, each with rows added on one side until it has the target length. One that
// is long enough stays as it is. Refuses 1 a malformed record, 14 a pad text outside the added texts, 2 no room.
pub fn pad(
    nodes: &[u32],
    rows: &[u32],
    added: &[u8],
    target_length: u64,
    token: PadToken,
    direction: Direction,
    out_nodes: &mut [u32],
    out_rows: &mut [u32],
) -> Result<Written, Refusal>
    ensures { Writes (pad_outcome out_nodes.old out_rows.old (length added.now)
        target_length token direction (read nodes.now rows.now)) result out_nodes.old
        out_rows.old out_nodes.new out_rows.new }
{
    if !record_check::is_one(nodes, rows) {
        return Err(Refusal::MalformedRecord);
    }
    if !pad_length::text_inside(token, added.len()) {
        return Err(Refusal::TextOutsidePool);
    }
    pad_room::pad_stored(
        nodes,
        rows,
        target_length,
        token,
        direction,
        out_nodes,
        out_rows,
    )
}

// Every encoding of a batch padded to one length, by the strategy and rounded up to a multiple; multiple 0 rounds
// nothing. Refuses 1 a malformed record, 14 a pad text outside the added texts, 2 no room.
pub fn pad_encodings(
    nodes: &[u32],
    rows: &[u32],
    added: &[u8],
    strategy: PaddingStrategy,
    multiple: u64,
    token: PadToken,
    direction: Direction,
    out_nodes: &mut [u32],
    out_rows: &mut [u32],
) -> Result<Written, Refusal>
    ensures { Writes (pad_encodings_outcome out_nodes.old out_rows.old
        (length added.now) strategy multiple token direction
        (read nodes.now rows.now)) result out_nodes.old out_rows.old
        out_nodes.new out_rows.new }
{
    record_check::check_batch(nodes, rows)?;
    if !pad_length::text_inside(token, added.len()) {
        return Err(Refusal::TextOutsidePool);
    }
    let target = pad_length::rounded_length(pad_length::padding_length(nodes, strategy), multiple);
    pad_room::pad_stored(nodes, rows, target, token, direction, out_nodes, out_rows)
}
