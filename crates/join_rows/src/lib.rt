// The rows of one node of a join: those of the first operand, then those of the second, seen and moved on.
#![tactic(auto)]

ghost use Rattle.std.specs.Prelude.{List, map, ◌≡◌, ◌+◌, ◌*◌, ◌≤◌, length};
ghost use Rattle.join_rows.specs.Promises.{AskMoved, MakesRows, moved_rows, AskOwn, WritesOwn};
ghost use Rattle.join_trees.specs.Join.{base};
ghost use Rattle.join_view.specs.View.{typed_row, rows_seen};
ghost use Rattle.record.specs.Flat.{row_width};
ghost use Rattle.record.specs.Standing.{RowsAt};
ghost use Rattle.record.specs.Tree.{Row};

use join_view::View;
use record::{Column, Encoding};

// The rows of the join of encodings that have `count` rows at j and `p_count` rows at k, from `at` on.
pub fn write_own_rows(
    s_rows: &[u32],
    j: usize,
    count: usize,
    p_rows: &[u32],
    k: usize,
    p_count: usize,
    view: View,
    growing: bool,
    out_rows: &mut [u32],
    at: usize,
)
    requires { AskOwn s_rows.now j count p_rows.now k p_count growing out_rows.old at }
    ensures { WritesOwn s_rows.now j count p_rows.now k p_count view growing
        out_rows.old at out_rows.new }
{
    let size = count * Encoding::ROW_WIDTH;
    let base = base_of(s_rows, j, count, growing);
    lists::copy(s_rows, j, size, out_rows, at);
    copy_moved(p_rows, k, p_count, base, view, out_rows, at + size);
}

// By how much P's offsets move: the last offset end of S's rows, of which `count` stand at j, if growing.
pub fn base_of(rows: &[u32], j: usize, count: usize, growing: bool) -> u32
    requires { j + count * row_width ≤ length rows.now }
    ensures { (R : List Row) → RowsAt rows.now j R → length R ≡ count → result ≡ base growing R }
{
    if !growing {
        return 0;
    }
    if count == 0 {
        return 0;
    }
    rows[j + (count - 1) * Encoding::ROW_WIDTH + Column::OFFSET_END]
}

// The rows of P, of which `count` stand at j, as they follow those of S: seen through the view, their offsets moved on by n.
// The whole block is copied as its offsets move, and only the types, if they change, are written again.
pub fn copy_moved(
    p_rows: &[u32],
    j: usize,
    count: usize,
    n: u32,
    view: View,
    out_rows: &mut [u32],
    at: usize,
)
    requires { (AskMoved p_rows.now j count n) × (at + count * row_width ≤ length out_rows.old) }
    ensures { MakesRows (moved_rows view n) p_rows.now j count out_rows.old at
        out_rows.new }
{
    join_shift::copy_shifted(p_rows, j, count, n, out_rows, at);
    view_types(out_rows, at, count, view);
}

// The type that the view sets, if it sets one, on `count` rows, from `at` on.
pub fn view_types(rows: &mut [u32], at: usize, count: usize, view: View)
    requires { at + count * row_width ≤ length rows.old }
    ensures { MakesRows (rows_seen view) rows.old at count rows.old at rows.new }
{
    match view {
        View::Plain => {}
        View::Window(_) => {}
        View::Piece(_, type_id) => set_types(rows, at, count, type_id),
    }
}

// One type on `count` rows, from `at` on.
pub fn set_types(rows: &mut [u32], at: usize, count: usize, type_id: u32)
    requires { at + count * row_width ≤ length rows.old }
    ensures { MakesRows (map (typed_row type_id)) rows.old at count rows.old at
        rows.new }
{
    for i in 0..count {
        rows[at + i * Encoding::ROW_WIDTH + Column::TYPE_ID] = type_id;
    }
}
