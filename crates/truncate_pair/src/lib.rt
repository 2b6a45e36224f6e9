// Cutting one or two encodings, each to a length of its own (document 02, request 07).
#![tactic(auto)]

ghost use Rattle.std.specs.Prelude.{◌≡◌};
ghost use Rattle.record.specs.Outcome.{Writes};
ghost use Rattle.record.specs.Read.{read};
ghost use Rattle.truncate_pair.specs.Promises.{second_rows_at};
ghost use Rattle.truncate_pair.specs.CutPair.{cut_pair_outcome};

use cut_plan::Direction;
use record::{Encoding, Refusal, Written};

// One or two encodings, the first cut to first_length rows and the second, if there is one, to second_length, each as truncate
// cuts it; a length for a missing second is passed over, and a second without one stays whole.
// Refuses 1 a malformed record or another number of encodings, 3 a stride of as many rows as either is cut to or more, 2 no
// room for both.
pub fn cut_pair(
    nodes: &[u32],
    rows: &[u32],
    first_length: u32,
    second_length: Option<u32>,
    stride: u32,
    direction: Direction,
    out_nodes: &mut [u32],
    out_rows: &mut [u32],
) -> Result<Written, Refusal>
    ensures { Writes (cut_pair_outcome out_nodes.old out_rows.old first_length
        second_length stride direction (read nodes.now rows.now)) result out_nodes.old
        out_rows.old out_nodes.new out_rows.new }
{
    if !record_check::is_one_or_two(nodes, rows) {
        return Err(Refusal::MalformedRecord);
    }
    let own = record_extent::measure(nodes, 0, 1);
    let second = second_rows(nodes, own.nodes * Encoding::NODE_WIDTH);
    match second {
        None => {
            truncate::cut_one(
                nodes,
                rows,
                own,
                first_length,
                stride,
                direction,
                out_nodes,
                out_rows,
            )
        }
        Some(n) => {
            truncate_two::cut_two(
                nodes,
                rows,
                own,
                first_length,
                // As a cut to all rows changes nothing.
                second_length.unwrap_or(n),
                stride,
                direction,
                out_nodes,
                out_rows,
            )
        }
    }
}

// The row count of the second encoding, whose node stands at i if there is one.
fn second_rows(nodes: &[u32], i: usize) -> Option<u32>
    ensures { result ≡ second_rows_at nodes.now i }
{
    nodes.get(i).copied()
}
