// Fold of a batch (document 01, `merge`): its encodings joined one after another, from the empty encoding on.
#![tactic(auto)]

ghost use Rattle.join_trees.specs.Outcomes.{fold_outcome};
ghost use Rattle.record.specs.Read.{read};
ghost use Rattle.record.specs.Working.{WritesWith};

use record::{Refusal, Written};

// The encodings of a batch joined in their order, from the empty encoding on.
// Refuses 1 a malformed record, 2 no room in the output or in the working store, 6 an offset that would pass 32 bits, which
// leaves output and working store all zeros. A working store is zeroed on success too.
pub fn merge(
    nodes: &[u32],
    rows: &[u32],
    growing: bool,
    out_nodes: &mut [u32],
    out_rows: &mut [u32],
    working_nodes: &mut [u32],
    working_rows: &mut [u32],
) -> Result<Written, Refusal>
    ensures { WritesWith
        (fold_outcome growing (read nodes.now rows.now)
        out_nodes.old out_rows.old
        working_nodes.old working_rows.old)
        result out_nodes.old out_rows.old working_nodes.old working_rows.old
        out_nodes.new out_rows.new working_nodes.new working_rows.new }
{
    let decision = fold_check::decide(
        nodes,
        rows,
        growing,
        out_nodes.len(),
        out_rows.len(),
        working_nodes.len(),
        working_rows.len(),
    );
    match decision {
        Ok(written) => {
            fold_write::write_fold(
                nodes,
                rows,
                growing,
                out_nodes,
                out_rows,
                working_nodes,
                working_rows,
            );
            Ok(written)
        }
        Err(why) => match why {
            Refusal::OffsetTooLarge => {
                fold_write::zero_all(out_nodes, out_rows, working_nodes, working_rows);
                Err(Refusal::OffsetTooLarge)
            }
            _ => Err(why),
        },
    }
}
