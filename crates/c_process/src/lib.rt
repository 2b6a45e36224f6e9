// The C interface of the template processor. The function returns the number of its refusal, 0 for none, and gives its values
// through lent numbers, which a refusal leaves as they were, but for a part at fault. include/noddrefyr.h is made from this file too.
#![tactic(auto)]

ghost use Rattle.std.specs.Prelude.{◌≡◌};
ghost use Rattle.c_crossing.specs.Crossing.{WritesOutWith};
ghost use Rattle.process_check.specs.Process.{process_outcome};
ghost use Rattle.record.specs.Outcome.{answered, fault_after};

// One or two encodings put together as the template for one or for two says, special tokens added or left out, written to the
// output; written is its nodes and its rows. Encoding i gets sequence id i; a template that is not set is `$0`, or
// `$A:0 $B:1`. The working store takes as much as the output and is all zeros afterwards. Refused with 1, 15, 12, 8, 19,
// 20, 21, 11 (B without a second encoding), 10 (only where special tokens are added), 2; with 19 to 21 fault is the number of the
// part at fault of the template used and the place of its first byte, both from 0, and else it stays as it was.
#[unsafe(no_mangle)]
pub extern "C" fn noddrefyr_process<'a>(
    nodes: &[u32],
    rows: &[u32],
    single_set: bool,
    single: &'a [u8],
    pair_set: bool,
    pair: &'a [u8],
    entries: &[u32],
    members: &[u32],
    added: &[u8],
    add_special_tokens: bool,
    out_nodes: &mut [u32],
    out_rows: &mut [u32],
    working_nodes: &mut [u32],
    working_rows: &mut [u32],
    written: &mut [usize; 2],
    fault: &mut [usize; 2],
) -> u32
    ensures answer { WritesOutWith
        (process_outcome nodes.now rows.now single_set single.now pair_set pair.now
        entries.now members.now added.now add_special_tokens out_nodes.old
        out_rows.old working_nodes.old working_rows.old)
        result written.old written.new out_nodes.old out_rows.old
        working_nodes.old working_rows.old out_nodes.new
        out_rows.new working_nodes.new working_rows.new }
    ensures part { fault.new ≡ fault_after fault.old (answered
        (process_outcome nodes.now rows.now single_set single.now pair_set pair.now
        entries.now members.now added.now add_special_tokens out_nodes.old
        out_rows.old working_nodes.old working_rows.old)) }
{
    let answer = process::process(
        nodes,
        rows,
        single_set.then_some(single),
        pair_set.then_some(pair),
        entries,
        members,
        added,
        add_special_tokens,
        out_nodes,
        out_rows,
        working_nodes,
        working_rows,
    );
    c_crossing::told_with_fault(answer, written, fault)
}
