// The steps of a template taken one after another: measured, then written to the output (document 01, module 9).
#![tactic(auto)]

ghost use Rattle.process_apply.specs.Promises.{AskApply, Applies};

use record::{Refusal, Spot, Written};

// The encodings that `count` steps speak of, joined in their order from the empty encoding on, without growing offsets.
// Refuses 2 no room in the output or in the working store. The working store is zeroed on success.
pub fn apply_steps(
    nodes: &[u32],
    rows: &[u32],
    second: Spot,
    entries: &[u32],
    members: &[u32],
    steps: &[u32],
    count: usize,
    out_nodes: &mut [u32],
    out_rows: &mut [u32],
    working_nodes: &mut [u32],
    working_rows: &mut [u32],
) -> Result<Written, Refusal>
    requires { AskApply nodes.now rows.now second entries.now members.now steps.now count }
    ensures { Applies nodes.now rows.now second entries.now members.now
        steps.now count result out_nodes.old out_rows.old
        working_nodes.old working_rows.old
        out_nodes.new out_rows.new working_nodes.new working_rows.new }
{
    let size = process_sizes::size_of_steps(nodes, second.node, entries, steps, count);
    if !record_room::has_room(size, out_nodes.len(), out_rows.len()) {
        return Err(Refusal::NoRoom);
    }
    if !record_room::has_room(size, working_nodes.len(), working_rows.len()) {
        return Err(Refusal::NoRoom);
    }
    process_write::write_steps(
        nodes,
        rows,
        second,
        entries,
        members,
        steps,
        count,
        out_nodes,
        out_rows,
        working_nodes,
        working_rows,
    );
    join_size::zero_both(working_nodes, working_rows);
    Ok(Written {
        nodes: size.nodes,
        rows: size.rows,
    })
}
