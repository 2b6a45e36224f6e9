// The C interface of truncation. Each function returns the number of its refusal, 0 for none, and gives its values through
// lent numbers, which a refusal leaves as they were. include/noddrefyr.h is made from this file too.
#![tactic(auto)]

ghost use Rattle.c_crossing.specs.Crossing.{WritesOut};
ghost use Rattle.c_crossing.specs.Options.{direction_of};
ghost use Rattle.c_cut.specs.Options.{second_length_of};
ghost use Rattle.record.specs.Read.{read};
ghost use Rattle.truncate.specs.Truncate.{truncate_outcome};
ghost use Rattle.truncate_pair.specs.CutPair.{cut_pair_outcome};

// One encoding cut to max rows, from its left or its right end, with the other windows of the cut as its windows, written
// to the output; written is its nodes and its rows. Refused with 1, 3, 2.
#[unsafe(no_mangle)]
pub extern "C" fn noddrefyr_truncate(
    nodes: &[u32],
    rows: &[u32],
    max: u32,
    stride: u32,
    left: bool,
    out_nodes: &mut [u32],
    out_rows: &mut [u32],
    written: &mut [usize; 2],
) -> u32
    ensures { WritesOut
        (truncate_outcome out_nodes.old out_rows.old max stride (direction_of left)
        (read nodes.now rows.now))
        result written.old written.new out_nodes.old out_rows.old
        out_nodes.new out_rows.new }
{
    let direction = c_crossing::direction_of(left);
    let answer = truncate::truncate(nodes, rows, max, stride, direction, out_nodes, out_rows);
    c_crossing::told(answer, written)
}

// A batch of one or two encodings, the first cut to first_length rows and the second, if has_second_length, to second_length, from
// their left or their right ends, written to the output one after the other; written is its nodes and its rows. A length for a
// missing second is passed over; a second without one stays whole. Refused with 1, 3, 2.
#[unsafe(no_mangle)]
pub extern "C" fn noddrefyr_cut_pair(
    nodes: &[u32],
    rows: &[u32],
    first_length: u32,
    has_second_length: bool,
    second_length: u32,
    stride: u32,
    left: bool,
    out_nodes: &mut [u32],
    out_rows: &mut [u32],
    written: &mut [usize; 2],
) -> u32
    ensures { WritesOut
        (cut_pair_outcome out_nodes.old out_rows.old first_length
        (second_length_of has_second_length second_length) stride (direction_of left)
        (read nodes.now rows.now))
        result written.old written.new out_nodes.old out_rows.old
        out_nodes.new out_rows.new }
{
    let direction = c_crossing::direction_of(left);
    let length = has_second_length.then_some(second_length);
    let answer = truncate_pair::cut_pair(
        nodes,
        rows,
        first_length,
        length,
        stride,
        direction,
        out_nodes,
        out_rows,
    );
    c_crossing::told(answer, written)
}
