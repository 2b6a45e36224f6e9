// What C calls of `c_make`: each function promises what it promises there.
ghost use Rattle.std.specs.Prelude.{◌≡◌};
ghost use Rattle.c_crossing.specs.Crossing.{WritesOut};
ghost use Rattle.record.specs.Read.{read};
ghost use Rattle.record.specs.Outcome.{refusal_of};
ghost use Rattle.record_check.specs.Answers.{shape_of, encodings_or};
ghost use Rattle.record_make.specs.Making.{from_tokens, set_sequence_id};

// Whether two slices are a well-formed batch (else 1), and the number of its encodings at the top.
#[unsafe(no_mangle)]
pub extern "C" fn noddrefyr_check_batch(nodes: &[u32], rows: &[u32], encodings: &mut usize) -> u32
    ensures refusal { result ≡ refusal_of (shape_of (read nodes.now rows.now)) }
    ensures values { encodings.new ≡
        encodings_or encodings.old (shape_of (read nodes.now rows.now)) }
{
    c_make::noddrefyr_check_batch(nodes, rows, encodings)
}

// The encoding of tokens of 5 numbers each (id, text start, text length, offset start, offset end), written to the output;
// written is its nodes and its rows. Refused with 1 (no whole tokens), 2.
#[unsafe(no_mangle)]
pub extern "C" fn noddrefyr_from_tokens(
    tokens: &[u32],
    type_id: u32,
    out_nodes: &mut [u32],
    out_rows: &mut [u32],
    written: &mut [usize; 2],
) -> u32
    ensures { WritesOut
        (from_tokens tokens.now type_id out_nodes.old out_rows.old) result
        written.old written.new out_nodes.old out_rows.old
        out_nodes.new out_rows.new }
{
    c_make::noddrefyr_from_tokens(tokens, type_id, out_nodes, out_rows, written)
}

// One encoding with the range of a sequence set to all its rows, written to the output; written is its nodes and its rows.
// Refused with 1, 13, 2.
#[unsafe(no_mangle)]
pub extern "C" fn noddrefyr_set_sequence_id(
    nodes: &[u32],
    rows: &[u32],
    sequence_id: u32,
    out_nodes: &mut [u32],
    out_rows: &mut [u32],
    written: &mut [usize; 2],
) -> u32
    ensures { WritesOut
        (set_sequence_id (read nodes.now rows.now) sequence_id out_nodes.old
        out_rows.old)
        result written.old written.new out_nodes.old out_rows.old
        out_nodes.new out_rows.new }
{
    c_make::noddrefyr_set_sequence_id(nodes, rows, sequence_id, out_nodes, out_rows, written)
}
