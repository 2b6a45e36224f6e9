// What C calls of `c_pad`: each function promises what it promises there.
ghost use Rattle.std.specs.Prelude.{length};
ghost use Rattle.c_crossing.specs.Crossing.{WritesOut};
ghost use Rattle.c_crossing.specs.Options.{direction_of};
ghost use Rattle.c_pad.specs.Options.{pad_token, padding_of};
ghost use Rattle.pad.specs.Padding.{pad_outcome, pad_encodings_outcome};
ghost use Rattle.record.specs.Read.{read};

// One encoding and its windows padded on the left or on the right to target_length rows, written to the output; written
// is its nodes and its rows. The pad text lies in the added texts. Refused with 1, 14, 2.
#[unsafe(no_mangle)]
pub extern "C" fn noddrefyr_pad(
    nodes: &[u32],
    rows: &[u32],
    added: &[u8],
    target_length: u64,
    pad_id: u32,
    pad_type_id: u32,
    text_start: u32,
    text_length: u32,
    left: bool,
    out_nodes: &mut [u32],
    out_rows: &mut [u32],
    written: &mut [usize; 2],
) -> u32
    ensures { WritesOut
        (pad_outcome out_nodes.old out_rows.old (length added.now)
        target_length (pad_token pad_id pad_type_id text_start text_length) (direction_of left)
        (read nodes.now rows.now))
        result written.old written.new out_nodes.old out_rows.old
        out_nodes.new out_rows.new }
{
    c_pad::noddrefyr_pad(
        nodes,
        rows,
        added,
        target_length,
        pad_id,
        pad_type_id,
        text_start,
        text_length,
        left,
        out_nodes,
        out_rows,
        written,
    )
}

// Every encoding of a batch, its windows too, padded to fixed_length if it is fixed, else to that of the longest, in
// both cases rounded up to a multiple (0 for none), written to the output; written is its nodes and its rows. Refused with
// 1, 14, 2.
#[unsafe(no_mangle)]
pub extern "C" fn noddrefyr_pad_encodings(
    nodes: &[u32],
    rows: &[u32],
    added: &[u8],
    fixed: bool,
    fixed_length: u64,
    multiple: u64,
    pad_id: u32,
    pad_type_id: u32,
    text_start: u32,
    text_length: u32,
    left: bool,
    out_nodes: &mut [u32],
    out_rows: &mut [u32],
    written: &mut [usize; 2],
) -> u32
    ensures { WritesOut
        (pad_encodings_outcome out_nodes.old out_rows.old (length added.now)
        (padding_of fixed fixed_length) multiple (pad_token pad_id pad_type_id text_start text_length)
        (direction_of left) (read nodes.now rows.now))
        result written.old written.new out_nodes.old out_rows.old
        out_nodes.new out_rows.new }
{
    c_pad::noddrefyr_pad_encodings(
        nodes,
        rows,
        added,
        fixed,
        fixed_length,
        multiple,
        pad_id,
        pad_type_id,
        text_start,
        text_length,
        left,
        out_nodes,
        out_rows,
        written,
    )
}
