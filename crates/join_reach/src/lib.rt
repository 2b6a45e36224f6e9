// How far the offsets of rows and of encodings reach: the largest last offset end, the largest offset, and a bound of all
// offsets that takes half the time.
#![tactic(auto)]

ghost use Rattle.std.specs.Prelude.{◌≡◌, List, ◌+◌, ◌*◌, ◌≤◌, ◌<◌, length};
ghost use Rattle.record.specs.Flat.{row_width};
ghost use Rattle.record.specs.Tree.{Row, Forest};
ghost use Rattle.join_trees.specs.Join.{last_end};
ghost use Rattle.join_reach.specs.Reach.{largest_offset, largest_base};
ghost use Rattle.join_reach.specs.Promises.{RowsFrom, NodesFrom, BoundsFour};

use record::{Column, Encoding};

// How many numbers two, three and four rows have.
const TWO_ROWS: usize = 2 * Encoding::ROW_WIDTH;

const THREE_ROWS: usize = 3 * Encoding::ROW_WIDTH;

const FOUR_ROWS: usize = 4 * Encoding::ROW_WIDTH;

// The largest last offset end of the `count` nodes from node place i on, whose rows begin at row place j.
pub fn largest_base(nodes: &[u32], i: usize, count: usize, rows: &[u32], j: usize) -> u32
    requires { (f : Forest) × NodesFrom nodes.now rows.now i j count f }
    ensures { (f : Forest) → NodesFrom nodes.now rows.now i j count f → result ≡ largest_base f }
{
    let mut row = j;
    let mut largest: u32 = 0;
    for k in 0..count {
        let n = nodes[i + k * Encoding::NODE_WIDTH] as usize;
        largest = largest.max(last_end(rows, row, n));
        row += n * Encoding::ROW_WIDTH;
    }
    largest
}

// The offset end of the last of the `count` rows from place j on, 0 without rows.
fn last_end(rows: &[u32], j: usize, count: usize) -> u32
    requires { (R : List Row) × RowsFrom rows.now j count R }
    ensures { (R : List Row) → RowsFrom rows.now j count R → result ≡ last_end 0 R }
{
    if count == 0 {
        return 0;
    }
    rows[j + (count - 1) * Encoding::ROW_WIDTH + Column::OFFSET_END]
}

// The largest offset, start or end, of the `count` rows from place j on, 0 without rows.
pub fn largest_offset(rows: &[u32], j: usize, count: usize) -> u32
    requires { (R : List Row) × RowsFrom rows.now j count R }
    ensures { (R : List Row) → RowsFrom rows.now j count R → result ≡ largest_offset R }
{
    let mut largest: u32 = 0;
    for k in 0..count {
        let row = j + k * Encoding::ROW_WIDTH;
        let own = rows[row + Column::OFFSET_START].max(rows[row + Column::OFFSET_END]);
        largest = largest.max(own);
    }
    largest
}

// A number that no offset of the `count` rows from place j on passes, at most twice the largest: their bits, put together.
// Four rows at a time, and starts apart from ends, so that the two offsets of a row are read at once.
pub fn offset_bound(rows: &[u32], j: usize, count: usize) -> u32
    requires { (R : List Row) × RowsFrom rows.now j count R }
    ensures { (R : List Row) → RowsFrom rows.now j count R → largest_offset R ≤ result }
{
    let fours = count / 4;
    let mut starts: u32 = 0;
    let mut ends: u32 = 0;
    for k in 0..fours {
        let row = j + k * FOUR_ROWS;
        starts = starts | bound_of_four(rows, row + Column::OFFSET_START);
        ends = ends | bound_of_four(rows, row + Column::OFFSET_END);
    }
    starts | ends | bound_of_few(rows, j + fours * FOUR_ROWS, count % 4)
}

// The same, row by row.
fn bound_of_few(rows: &[u32], j: usize, count: usize) -> u32
    requires { (R : List Row) × RowsFrom rows.now j count R }
    ensures { (R : List Row) → RowsFrom rows.now j count R → largest_offset R ≤ result }
{
    let mut starts: u32 = 0;
    let mut ends: u32 = 0;
    for k in 0..count {
        let row = j + k * Encoding::ROW_WIDTH;
        starts = starts | rows[row + Column::OFFSET_START];
        ends = ends | rows[row + Column::OFFSET_END];
    }
    starts | ends
}

// A number that none of one column of four rows passes, of which the first stands at `at`: their bits, put together.
fn bound_of_four(rows: &[u32], at: usize) -> u32
    requires { at + 3 * row_width < length rows.now }
    ensures { BoundsFour rows.now at result }
{
    rows[at] | rows[at + Encoding::ROW_WIDTH] | rows[at + TWO_ROWS] | rows[at + THREE_ROWS]
}
