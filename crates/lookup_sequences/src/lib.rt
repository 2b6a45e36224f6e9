// The sequences of an encoding: the rows of each, how many there are, and which one a row is in. The record is a batch of
// one encoding, of which these operations read the top node; any other is refused with 1.
#![tactic(auto)]

ghost use Rattle.std.specs.Prelude.{◌≡◌, length};
ghost use Rattle.lookup_sequences.specs.Answers.{range_answer, sequence_count_answer, sequence_answer, sequence_ids, column_answer, column_left};
ghost use Rattle.record.specs.Read.{read};

use lookup_holding::Sequence;
use lookup_ranges::Rows;
use record::{Refusal, Row};

// The rows of a sequence: all rows if it has no range. Refusal: 1.
pub fn sequence_range(nodes: &[u32], rows: &[u32], sequence_id: u32) -> Result<Rows, Refusal>
    ensures { result ≡ range_answer (read nodes.now rows.now) sequence_id }
{
    if !record_check::is_one(nodes, rows) {
        return Err(Refusal::MalformedRecord);
    }
    let bounds = lookup_ranges::range_of(nodes, sequence_id);
    Ok(Rows {
        start: Row(bounds.start),
        end: Row(bounds.end),
    })
}

// The number of sequences: of the ranges, or 1 if there is none. Refusal: 1.
pub fn n_sequences(nodes: &[u32], rows: &[u32]) -> Result<u32, Refusal>
    ensures { result ≡ sequence_count_answer (read nodes.now rows.now) }
{
    if !record_check::is_one(nodes, rows) {
        return Err(Refusal::MalformedRecord);
    }
    Ok(lookup_ranges::count_of(nodes))
}

// The sequence that a row is in, and its place counted from the start of that sequence's range: the smallest id whose range
// holds it; 0 and the row's own number if there are no ranges. Refusal: 1.
pub fn token_to_sequence(
    nodes: &[u32],
    rows: &[u32],
    token: Row,
) -> Result<Option<Sequence>, Refusal>
    ensures { result ≡ sequence_answer (read nodes.now rows.now) token.0 }
{
    if !record_check::is_one(nodes, rows) {
        return Err(Refusal::MalformedRecord);
    }
    let found = lookup_holding::sequence_of(nodes, token.0);
    Ok(found)
}

// For each row a mark and the sequence that it is in, written from the front of out: 1 and the id, or two zeros.
// Answers the number of rows. Refusals: 1; 2 if out is too short.
pub fn get_sequence_ids(nodes: &[u32], rows: &[u32], out: &mut [u32]) -> Result<usize, Refusal>
    ensures answer { result ≡ column_answer
        (sequence_ids (read nodes.now rows.now) (length out.old)) }
    ensures left { out.new ≡ column_left
        (sequence_ids (read nodes.now rows.now) (length out.old))
        out.old }
{
    if !record_check::is_one(nodes, rows) {
        return Err(Refusal::MalformedRecord);
    }
    let n = nodes[0] as usize;
    if out.len() < 2 * n {
        return Err(Refusal::NoRoom);
    }
    out[..2 * n].fill(0);
    lookup_ranges::mark_ranges(nodes, out);
    Ok(n)
}
