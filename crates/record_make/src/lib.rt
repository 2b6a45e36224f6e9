// Making a record: from tokens, and with a sequence id set (document 01, module 1).
#![tactic(auto)]

ghost use Rattle.record.specs.Outcome.{Writes};
ghost use Rattle.record.specs.Read.{read};
ghost use Rattle.record_make.specs.Making.{from_tokens, set_sequence_id};

use record::{Encoding, Refusal, Written};
use record_write::Token;

// The encoding of these tokens, a row each: type as given, no words, attention 1, special 0, no ranges, no windows.
pub fn from_tokens(
    tokens: &[u32],
    type_id: u32,
    out_nodes: &mut [u32],
    out_rows: &mut [u32],
) -> Result<Written, Refusal>
    ensures { Writes
        (from_tokens tokens.now type_id out_nodes.old out_rows.old)
        result out_nodes.old out_rows.old
        out_nodes.new out_rows.new }
{
    if tokens.len() % Token::WIDTH != 0 {
        return Err(Refusal::MalformedRecord);
    }
    let count = tokens.len() / Token::WIDTH;
    if count > Encoding::MOST_ROWS {
        return Err(Refusal::NoRoom);
    }
    if out_nodes.len() < Encoding::NODE_WIDTH {
        return Err(Refusal::NoRoom);
    }
    if out_rows.len() < count * Encoding::ROW_WIDTH {
        return Err(Refusal::NoRoom);
    }
    out_nodes[0] = count as u32;
    lists::fill(out_nodes, 1, Encoding::NODE_WIDTH - 1, 0);
    record_write::write_tokens(tokens, type_id, count, out_rows);
    Ok(Written {
        nodes: 1,
        rows: count,
    })
}

// The encoding with the range of a sequence set to all its rows. Other ranges, rows and windows stay.
pub fn set_sequence_id(
    nodes: &[u32],
    rows: &[u32],
    sequence_id: u32,
    out_nodes: &mut [u32],
    out_rows: &mut [u32],
) -> Result<Written, Refusal>
    ensures { Writes
        (set_sequence_id (read nodes.now rows.now) sequence_id
        out_nodes.old out_rows.old)
        result out_nodes.old out_rows.old
        out_nodes.new out_rows.new }
{
    if !record_check::is_one(nodes, rows) {
        return Err(Refusal::MalformedRecord);
    }
    let id = sequence_id as usize;
    if id >= Encoding::SEQUENCES {
        return Err(Refusal::SequenceIdAboveLast);
    }
    if out_nodes.len() < nodes.len() {
        return Err(Refusal::NoRoom);
    }
    if out_rows.len() < rows.len() {
        return Err(Refusal::NoRoom);
    }
    lists::copy(nodes, 0, nodes.len(), out_nodes, 0);
    lists::copy(rows, 0, rows.len(), out_rows, 0);
    record_write::write_range(
        out_nodes,
        Encoding::RANGES + id * Encoding::RANGE_WIDTH,
        0,
        nodes[0],
    );
    Ok(Written {
        nodes: nodes.len() / Encoding::NODE_WIDTH,
        rows: rows.len() / Encoding::ROW_WIDTH,
    })
}
