// A caller of the C interface that cuts a pair: its lengths, then the cut to them, in turn, for the program `replay_cuts`. Its
// promise is document 01's pair cut.
#![tactic(auto)]

ghost use Rattle.c_crossing.specs.Crossing.{WritesOut};
ghost use Rattle.c_crossing.specs.Options.{direction_of, strategy_of};
ghost use Rattle.record.specs.Read.{read};
ghost use Rattle.truncate_in_turn.specs.TruncatePair.{truncate_pair_outcome};

use record::Encoding;

// What a caller answers itself, before it asks for lengths: a malformed record, or another number of encodings.
const MALFORMED: u32 = 1;

// A batch of one or two encodings cut to max_length rows together. Refused with 1, 4, 5, 3, 2.
pub fn in_turn(
    nodes: &[u32],
    rows: &[u32],
    max_length: u32,
    stride: u32,
    strategy: u32,
    left: bool,
    out_nodes: &mut [u32],
    out_rows: &mut [u32],
    written: &mut [usize; 2],
) -> u32
    ensures { WritesOut
        (truncate_pair_outcome out_nodes.old out_rows.old max_length stride
        (strategy_of strategy) (direction_of left) (read nodes.now rows.now))
        result written.old written.new out_nodes.old out_rows.old
        out_nodes.new out_rows.new }
{
    if !record_check::is_one_or_two(nodes, rows) {
        return MALFORMED;
    }
    let own = record_extent::measure(nodes, 0, 1);
    let second = own.nodes * Encoding::NODE_WIDTH;
    let has_second = second < nodes.len();
    let second_rows = replay_cases::number_at(nodes, second);
    let mut kept = [0u32; 4];
    let refusal = c_lengths::noddrefyr_pair_lengths(
        nodes[0],
        has_second,
        second_rows,
        max_length,
        strategy,
        &mut kept,
    );
    if refusal != 0 {
        return refusal;
    }
    c_cut::noddrefyr_cut_pair(
        nodes, rows, kept[1], has_second, kept[3], stride, left, out_nodes, out_rows, written,
    )
}
