// Whether the offsets of a join, or of each step of a fold, stay within 32 bits: refusal 6, decided before anything is
// written, by a bound of all offsets where that is enough and by the largest where it is not.
//
// Each encoding of a join, windows included, is one of S with one of P, and every such pair occurs. Its offsets are those
// of the first, and those of the second moved on by the first's last offset end. So the largest is the largest last offset
// end of S and the largest offset of P together; and the last offset ends add up from step to step.
#![tactic(auto)]

ghost use Rattle.std.specs.Prelude.{◌≡◌, true};
ghost use Rattle.record.specs.Tree.{Forest, listed};
ghost use Rattle.record.specs.WellFormed.{Stores};
ghost use Rattle.join_trees.specs.Offsets.{fold_fits};
ghost use Rattle.join_offsets.specs.Promises.{Operands, AnswersJoin};

use record::Encoding;

// The largest offset that a record can hold.
const MOST_OFFSET: usize = 4294967295;

// Whether every offset of the join of two encodings stays within 32 bits.
pub fn join_fits(
    s_nodes: &[u32],
    s_rows: &[u32],
    p_nodes: &[u32],
    p_rows: &[u32],
    growing: bool,
) -> bool
    requires { Operands s_nodes.now s_rows.now p_nodes.now p_rows.now }
    ensures { AnswersJoin s_nodes.now s_rows.now p_nodes.now
        p_rows.now growing result }
{
    if !growing {
        return true;
    }
    let base = join_reach::largest_base(
        s_nodes,
        0,
        s_nodes.len() / Encoding::NODE_WIDTH,
        s_rows,
        0,
    );
    let count = p_rows.len() / Encoding::ROW_WIDTH;
    let bound = join_reach::offset_bound(p_rows, 0, count);
    if base as usize + (bound as usize) <= MOST_OFFSET {
        return true;
    }
    let offset = join_reach::largest_offset(p_rows, 0, count);
    base as usize + (offset as usize) <= MOST_OFFSET
}

// Whether every offset of every step of the fold of a batch stays within 32 bits.
pub fn fold_fits(nodes: &[u32], rows: &[u32], growing: bool) -> bool
    requires { (f : Forest) × Stores nodes.now rows.now f }
    ensures { (f : Forest) → Stores nodes.now rows.now f → result ≡ fold_fits growing (listed f) }
{
    if !growing {
        return true;
    }
    if far_within(nodes, rows) {
        return true;
    }
    steps_fit(nodes, rows)
}

// Whether even as many times the largest last offset end as there are nodes, and a bound of all offsets, stay within.
fn far_within(nodes: &[u32], rows: &[u32]) -> bool
    requires { (f : Forest) × Stores nodes.now rows.now f }
    ensures { (f : Forest) → Stores nodes.now rows.now f → result ≡ true → fold_fits true (listed f) ≡ true }
{
    let count = nodes.len() / Encoding::NODE_WIDTH;
    let base = join_reach::largest_base(nodes, 0, count, rows, 0);
    let bound = join_reach::offset_bound(rows, 0, rows.len() / Encoding::ROW_WIDTH);
    count * base as usize + (bound as usize) <= MOST_OFFSET
}

// The steps one by one. `base` is the largest last offset end of what is folded so far.
fn steps_fit(nodes: &[u32], rows: &[u32]) -> bool
    requires { (f : Forest) × Stores nodes.now rows.now f }
    ensures { (f : Forest) → Stores nodes.now rows.now f → result ≡ fold_fits true (listed f) }
{
    let mut base: usize = 0;
    let mut i: usize = 0;
    let mut j: usize = 0;
    // A while: the step is the encoding's own size, which a range doesn't have.
    while i < nodes.len() {
        let size = record_extent::measure(nodes, i, 1);
        let offset = join_reach::largest_offset(rows, j, size.rows);
        if base + offset as usize > MOST_OFFSET {
            return false;
        }
        base += join_reach::largest_base(nodes, i, size.nodes, rows, j) as usize;
        i += size.nodes * Encoding::NODE_WIDTH;
        j += size.rows * Encoding::ROW_WIDTH;
    }
    true
}
