// The windows of a cut, written: each a stretch of an encoding's rows (document 01, "Truncate").
#![tactic(auto)]

ghost use Rattle.std.specs.Prelude.{List, [], ◌∷◌, map, ◌≡◌, ◌+◌, ◌≤◌, length};
ghost use Rattle.std.proofs.lemmas.List.Edits.{sets};
ghost use Rattle.cut_plan.specs.Cut.{windows_of};
ghost use Rattle.cut_windows.specs.Made.{stretch_of, gathered};
ghost use Rattle.cut_windows.specs.Promises.{head, AskPart, AskWindows, MakesOfRows};
ghost use Rattle.record.specs.Flat.{node_width};
ghost use Rattle.record.specs.Standing.{RowsAt, Put};
ghost use Rattle.record.specs.Tree.{Row};

use cut_plan::Direction;
use record::{Bounds, Encoding};

// The node of an encoding of n rows and k windows, without ranges.
pub fn write_head(nodes: &mut [u32], at: usize, n: u32, k: u32)
    requires { at + node_width ≤ length nodes.old }
    ensures { nodes.new ≡ sets nodes.old at (head n k) }
{
    lists::fill(nodes, at, Encoding::NODE_WIDTH, 0);
    nodes[at] = n;
    nodes[at + 1] = k;
}

// A stretch of the rows at j, as an encoding without ranges and windows.
fn write_part(
    rows: &[u32],
    j: usize,
    stretch: Bounds,
    out_nodes: &mut [u32],
    a: usize,
    out_rows: &mut [u32],
    b: usize,
)
    requires { AskPart rows.now j stretch out_nodes.old a out_rows.old b }
    ensures { (R : List Row) → RowsAt rows.now j R → stretch.end ≤ length R → Put (stretch_of R stretch ∷ [])
        out_nodes.old a out_rows.old b out_nodes.new out_rows.new }
{
    let size = stretch.end - stretch.start;
    write_head(out_nodes, a, size, 0);
    let from = j + stretch.start as usize * Encoding::ROW_WIDTH;
    lists::copy(rows, from, size as usize * Encoding::ROW_WIDTH, out_rows, b);
}

// The windows of a cut one after another, each a stretch of the n rows at j.
fn write_windows(
    rows: &[u32],
    j: usize,
    n: u32,
    max: u32,
    stride: u32,
    direction: Direction,
    out_nodes: &mut [u32],
    a: usize,
    out_rows: &mut [u32],
    b: usize,
)
    requires { AskWindows rows.now j n max stride direction out_nodes.old a out_rows.old b }
    ensures { MakesOfRows (λ R. map (stretch_of R) (windows_of n max stride direction)) rows.now j n
        out_nodes.old a out_rows.old b out_nodes.new out_rows.new }
{
    let count = cut_plan::count_windows(n, max, stride);
    let mut node = a;
    let mut row = b;
    for i in 0..count {
        let window = cut_plan::window(n, max, stride, direction, i);
        write_part(rows, j, window, out_nodes, node, out_rows, row);
        node += Encoding::NODE_WIDTH;
        row += (window.end - window.start) as usize * Encoding::ROW_WIDTH;
    }
}

// The windows of a cut, gathered: the first is the encoding, the others its windows.
pub fn write_cut(
    rows: &[u32],
    j: usize,
    n: u32,
    max: u32,
    stride: u32,
    direction: Direction,
    count: u32,
    out_nodes: &mut [u32],
    a: usize,
    out_rows: &mut [u32],
    b: usize,
)
    requires { (AskWindows rows.now j n max stride direction out_nodes.old a out_rows.old b) ×
        (count ≡ length (windows_of n max stride direction)) }
    ensures { MakesOfRows (λ R. gathered (map (stretch_of R) (windows_of n max stride direction)) ∷ []) rows.now j n
        out_nodes.old a out_rows.old b out_nodes.new out_rows.new }
{
    write_windows(
        rows, j, n, max, stride, direction, out_nodes, a, out_rows, b,
    );
    out_nodes[a + 1] = count - 1;
}
