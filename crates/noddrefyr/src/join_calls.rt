// What C calls of `c_join`: each function promises what it promises there.
ghost use Rattle.c_crossing.specs.Crossing.{WritesOut, WritesOutWith};
ghost use Rattle.join_trees.specs.Outcomes.{join_outcome, fold_outcome};
ghost use Rattle.record.specs.Read.{read};

// Two encodings joined, written to the output; written is its nodes and its rows. Growing moves the second's offsets on by
// the first's last offset end. Refused with 1, 2, 6; 6 (an offset past 32 bits) leaves the output all zeros.
#[unsafe(no_mangle)]
pub extern "C" fn noddrefyr_merge_with(
    first_nodes: &[u32],
    first_rows: &[u32],
    second_nodes: &[u32],
    second_rows: &[u32],
    growing: bool,
    out_nodes: &mut [u32],
    out_rows: &mut [u32],
    written: &mut [usize; 2],
) -> u32
    ensures { WritesOut
        (join_outcome growing (read first_nodes.now first_rows.now)
        (read second_nodes.now second_rows.now) out_nodes.old
        out_rows.old)
        result written.old written.new out_nodes.old out_rows.old
        out_nodes.new out_rows.new }
{
    c_join::noddrefyr_merge_with(
        first_nodes,
        first_rows,
        second_nodes,
        second_rows,
        growing,
        out_nodes,
        out_rows,
        written,
    )
}

// The encodings of a batch joined in their order, from the empty encoding on, written to the output; written is its nodes
// and its rows. The working store takes as much as the output and is all zeros afterwards. Refused with 1, 2, 6; 6 leaves
// output and working store all zeros.
#[unsafe(no_mangle)]
pub extern "C" fn noddrefyr_merge(
    nodes: &[u32],
    rows: &[u32],
    growing: bool,
    out_nodes: &mut [u32],
    out_rows: &mut [u32],
    working_nodes: &mut [u32],
    working_rows: &mut [u32],
    written: &mut [usize; 2],
) -> u32
    ensures { WritesOutWith
        (fold_outcome growing (read nodes.now rows.now) out_nodes.old
        out_rows.old working_nodes.old working_rows.old)
        result written.old written.new out_nodes.old out_rows.old
        working_nodes.old working_rows.old out_nodes.new
        out_rows.new working_nodes.new working_rows.new }
{
    c_join::noddrefyr_merge(
        nodes,
        rows,
        growing,
        out_nodes,
        out_rows,
        working_nodes,
        working_rows,
        written,
    )
}
