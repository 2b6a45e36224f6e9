// Whether two lent slices are a well-formed batch, decided in one pass over each, and how many encodings it has.
#![tactic(auto)]

ghost use Rattle.std.specs.Prelude.{◌≡◌};
ghost use Rattle.record.specs.Read.{read, is_one, is_one_or_two};
ghost use Rattle.record_check.specs.Answers.{shape_of};
ghost use Rattle.record_check.specs.Promises.{Passes};

use record::{Encoding, Refusal};

// How many encodings at the top a batch has, refused with 1 unless two slices are a well-formed one. Every operation asks
// this first.
pub fn check_batch(nodes: &[u32], rows: &[u32]) -> Result<usize, Refusal>
    ensures { result ≡ shape_of (read nodes.now rows.now) }
{
    if nodes.len() > Encoding::MOST_NODE_NUMBERS {
        return Err(Refusal::MalformedRecord);
    }
    if rows.len() > Encoding::MOST_ROW_NUMBERS {
        return Err(Refusal::MalformedRecord);
    }
    if record_fields::rows_ok(rows) {
        return check_nodes(nodes, rows).ok_or(Refusal::MalformedRecord);
    }
    Err(Refusal::MalformedRecord)
}

// Whether they are a well-formed batch of just one encoding.
pub fn is_one(nodes: &[u32], rows: &[u32]) -> bool
    ensures { result ≡ is_one (read nodes.now rows.now) }
{
    match check_batch(nodes, rows) {
        Ok(n) => n == 1,
        Err(_) => false,
    }
}

// Whether they are a well-formed batch of one or two encodings.
pub fn is_one_or_two(nodes: &[u32], rows: &[u32]) -> bool
    ensures { result ≡ is_one_or_two (read nodes.now rows.now) }
{
    match check_batch(nodes, rows) {
        Ok(n) => n == 1 || n == 2,
        Err(_) => false,
    }
}

// The tree and the ranges: whether window counts close, row counts add up, levels are few and ranges are fine.
fn check_nodes(nodes: &[u32], rows: &[u32]) -> Option<usize>
    ensures { Passes nodes.now rows.now result }
{
    // pending[..depth] are the windows still to come of the nodes that are open, the outermost first.
    let mut pending = [0u32; Encoding::MOST_LEVELS];
    let mut depth: usize = 0;
    let mut i: usize = 0;
    let mut j: usize = 0;
    let mut tops: usize = 0;
    loop {
        if depth == 0 {
            if i == nodes.len() {
                if j == rows.len() {
                    return Some(tops);
                }
                return None;
            }
            tops += 1;
        } else {
            let k = pending[depth - 1];
            if k == 0 {
                depth -= 1;
                continue;
            }
            pending[depth - 1] = k - 1;
        }
        if !record_fields::node_fits(nodes, i, rows.len() - j) {
            return None;
        }
        j += nodes[i] as usize * Encoding::ROW_WIDTH;
        let w = nodes[i + 1];
        i += Encoding::NODE_WIDTH;
        if w > 0 {
            if depth == Encoding::MOST_LEVELS {
                return None;
            }
            pending[depth] = w;
            depth += 1;
        }
    }
}
