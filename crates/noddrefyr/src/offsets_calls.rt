// What C calls of `c_offsets`: each function promises what it promises there.
ghost use Rattle.c_crossing.specs.Crossing.{WritesOut};
ghost use Rattle.offsets.specs.Outcomes.{offsets_outcome};
ghost use Rattle.offsets_trees.specs.declared.Way.TheVariants.{ToCharacters, ToBytes};
ghost use Rattle.record.specs.Read.{read};

// A batch whose offsets are places of bytes in a text, with the number of characters before each in its place, written to the output;
// written is its nodes and its rows. The text is in UTF-8. Refused with 1, 16, then 17 or 18 by the first row concerned, 2.
#[unsafe(no_mangle)]
pub extern "C" fn noddrefyr_bytes_to_chars(
    nodes: &[u32],
    rows: &[u32],
    text: &[u8],
    out_nodes: &mut [u32],
    out_rows: &mut [u32],
    written: &mut [usize; 2],
) -> u32
    ensures { WritesOut
        (offsets_outcome ToCharacters (read nodes.now rows.now) text.now
        out_nodes.old out_rows.old)
        result written.old written.new out_nodes.old out_rows.old
        out_nodes.new out_rows.new }
{
    c_offsets::noddrefyr_bytes_to_chars(nodes, rows, text, out_nodes, out_rows, written)
}

// The way back: a batch whose offsets are numbers of characters, with the place of each character's first byte in its place, the
// text's length for the number of all. Refused with 1, 16, 17, 2.
#[unsafe(no_mangle)]
pub extern "C" fn noddrefyr_chars_to_bytes(
    nodes: &[u32],
    rows: &[u32],
    text: &[u8],
    out_nodes: &mut [u32],
    out_rows: &mut [u32],
    written: &mut [usize; 2],
) -> u32
    ensures { WritesOut
        (offsets_outcome ToBytes (read nodes.now rows.now) text.now
        out_nodes.old out_rows.old)
        result written.old written.new out_nodes.old out_rows.old
        out_nodes.new out_rows.new }
{
    c_offsets::noddrefyr_chars_to_bytes(nodes, rows, text, out_nodes, out_rows, written)
}
