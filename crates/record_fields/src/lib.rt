// Whether the numbers of a node and of the rows are what they may be, apart from the tree: ranges within the rows, a pool
// that there is, a word only where one is marked.
#![tactic(auto)]

ghost use Rattle.std.specs.Prelude.{◌≡◌, ◌+◌, ◌<◌, ◌≤◌, length};
ghost use Rattle.record.specs.Flat.{node_width};
ghost use Rattle.lists.specs.Lists.{Decides};
ghost use Rattle.record_fields.specs.Promises.{RangeOk, RangesOk, NodeFits, marked_word, LowestBit, RowsFine};

use record::{Column, Encoding};

// How many numbers a number of the record can be.
const NUMBERS: usize = 4294967296;

// Whether a whole node stands at i, its ranges in order, with no more rows than there is room for their numbers.
pub fn node_fits(nodes: &[u32], i: usize, room: usize) -> bool
    requires { i ≤ length nodes.now }
    ensures { Decides result (NodeFits nodes.now i room) }
{
    if nodes.len() - i < Encoding::NODE_WIDTH {
        return false;
    }
    if room < nodes[i] as usize * Encoding::ROW_WIDTH {
        return false;
    }
    node_ok(nodes, i)
}

// Absent, with zeros; or present, within n rows.
fn range_ok(n: u32, mark: u32, start: u32, end: u32) -> bool
    ensures { Decides result (RangeOk n mark start end) }
{
    match mark {
        0 => start == 0 && end == 0,
        1 => start <= end && end <= n,
        _ => false,
    }
}

// The ranges of the node at i.
fn node_ok(nodes: &[u32], i: usize) -> bool
    requires { i + node_width ≤ length nodes.now }
    ensures { Decides result (RangesOk nodes.now i) }
{
    for k in 0..Encoding::SEQUENCES {
        let at = i + Encoding::RANGES + k * Encoding::RANGE_WIDTH;
        if !range_ok(nodes[i], nodes[at], nodes[at + 1], nodes[at + 2]) {
            return false;
        }
    }
    true
}

// The word mark at `at` and the word after it as one number, the word above the mark: so both are read at once.
fn marked_word(rows: &[u32], at: usize) -> usize
    requires { at + 1 < length rows.now }
    ensures { result ≡ marked_word rows.now at }
{
    rows[at] as usize + rows[at + 1] as usize * NUMBERS
}

// The lowest bit that is set in x, 0 if there is none.
fn lowest_bit(x: usize) -> usize
    ensures { LowestBit x result }
{
    x & x.wrapping_neg()
}

// The pool and the word of every row. No branch depends on a row: pools and marks, of which each is 0 or 1, are put
// together bit by bit, and so are the lowest bits of marks and words, which are 1 or none unless a word stands where no mark is.
pub fn rows_ok(rows: &[u32]) -> bool
    ensures { Decides result (RowsFine rows.now) }
{
    let count = rows.len() / Encoding::ROW_WIDTH;
    let mut marks: usize = 0;
    let mut lowest: usize = 0;
    for i in 0..count {
        let at = i * Encoding::ROW_WIDTH;
        let word = marked_word(rows, at + Column::WORD_MARK);
        marks |= rows[at + Column::POOL] as usize | word;
        lowest |= lowest_bit(word);
    }
    lowest <= 1 && marks % NUMBERS <= 1
}
