// The steps of a template taken one after another and written to the output (document 01, module 9).
#![tactic(auto)]

ghost use Rattle.process_write.specs.Promises.{AskWrite, WritesSteps};

use record::Spot;

// The fold of what the steps speak of, into the output: from the empty encoding on, one step more each turn.
pub fn write_steps(
    nodes: &[u32],
    rows: &[u32],
    second: Spot,
    entries: &[u32],
    members: &[u32],
    steps: &[u32],
    count: usize,
    out_nodes: &mut [u32],
    out_rows: &mut [u32],
    working_nodes: &mut [u32],
    working_rows: &mut [u32],
)
    requires { AskWrite nodes.now rows.now second entries.now members.now steps.now count
        out_nodes.old out_rows.old working_nodes.old working_rows.old }
    ensures { WritesSteps nodes.now rows.now second entries.now members.now
        steps.now count out_nodes.old out_rows.old
        working_nodes.old working_rows.old
        out_nodes.new out_rows.new }
{
    fold_append::start(out_nodes);
    for i in 0..count {
        let step = process_steps::step_at(steps, i);
        process_take::write_step(
            nodes,
            rows,
            second,
            entries,
            members,
            step,
            out_nodes,
            out_rows,
            working_nodes,
            working_rows,
        );
    }
}
