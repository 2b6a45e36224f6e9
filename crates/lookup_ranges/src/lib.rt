// What the top node of an encoding says of its sequences: the rows of each, how many there are, and the sequence column.
// The operations that check their input first are in lookup_sequences.
#![tactic(auto)]

ghost use Rattle.std.specs.Prelude.{List, ◌++◌, ◌≡◌, ℕ, ◌*◌, ◌≤◌, length, replicate};
ghost use Rattle.lookup_ranges.specs.Promises.{Marks, ColumnFits, OfTop};
ghost use Rattle.lookup_ranges.specs.Ranges.{sequence_range, present, n_sequences, get_sequence_ids};
ghost use Rattle.record.specs.Flat.{node_width};

use record::{Bounds, Encoding, Row};

// The rows of a sequence or of a word: from start up to, not including, end.
#[derive(Clone, Copy)]
pub struct Rows {
    pub start: Row,
    pub end: Row,
}

// ---- What the operations share: functions of the top node, which is there.

// The rows of a sequence: all of them if it has no range.
pub fn range_of(nodes: &[u32], sequence_id: u32) -> Bounds
    requires { node_width ≤ length nodes.now }
    ensures { OfTop nodes.now (λ E. result ≡ sequence_range E sequence_id) }
{
    let k = sequence_id as usize;
    if k < Encoding::SEQUENCES {
        let at = Encoding::RANGES + k * Encoding::RANGE_WIDTH;
        if nodes[at] == 1 {
            return Bounds {
                start: nodes[at + 1],
                end: nodes[at + 2],
            };
        }
    }
    Bounds {
        start: 0,
        end: nodes[0],
    }
}

// The number of ranges.
pub fn present_of(nodes: &[u32]) -> u32
    requires { node_width ≤ length nodes.now }
    ensures { OfTop nodes.now (λ E. result ≡ present E.ranges) }
{
    let mut n: u32 = 0;
    for k in 0..Encoding::SEQUENCES {
        if nodes[Encoding::RANGES + k * Encoding::RANGE_WIDTH] == 1 {
            n += 1;
        }
    }
    n
}

// The number of sequences.
pub fn count_of(nodes: &[u32]) -> u32
    requires { node_width ≤ length nodes.now }
    ensures { OfTop nodes.now (λ E. result ≡ n_sequences E) }
{
    present_of(nodes).max(1)
}

// ---- The sequence column

// The column of all sequences over one of zeros, one id after another.
pub fn mark_ranges(nodes: &[u32], out: &mut [u32])
    requires { ColumnFits nodes.now out.old }
    ensures { OfTop nodes.now
        (λ E. (rest : List ℕ) → out.old ≡ replicate (2 * length E.rows) 0 ++ rest →
        out.new ≡ get_sequence_ids E ++ rest) }
{
    let n = count_of(nodes);
    for k in 0..n {
        mark(out, range_of(nodes, k), k);
    }
}

// The mark and the id for the rows of one sequence.
pub fn mark(out: &mut [u32], rows: Bounds, id: u32)
    requires { (rows.start ≤ rows.end) × (2 * rows.end ≤ length out.old) }
    ensures { Marks rows id out.old out.new }
{
    for i in rows.start as usize..rows.end as usize {
        out[2 * i] = 1;
        out[2 * i + 1] = id;
    }
}
