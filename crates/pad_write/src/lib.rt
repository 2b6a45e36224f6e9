// Padded encodings, written: each node with new rows on one side of its own (document 01, "Pad").
#![tactic(auto)]

ghost use Rattle.pad_write.specs.Promises.{AskPadded, Filled};
ghost use Rattle.pad_write.specs.Padded.{padded};
ghost use Rattle.record.specs.Tree.{Forest};
ghost use Rattle.record.specs.WellFormed.{Stores};

use cut_plan::Direction;
use pad_rows::PadToken;
use record::Encoding;

// Every node with its rows, padded. Padding keeps the nodes in their places, and treats windows like encodings.
pub fn write_padded(
    nodes: &[u32],
    rows: &[u32],
    target: u32,
    token: PadToken,
    direction: Direction,
    out_nodes: &mut [u32],
    out_rows: &mut [u32],
)
    requires { AskPadded nodes.now rows.now target out_nodes.old out_rows.old }
    ensures { (f : Forest) → Stores nodes.now rows.now f → Filled
        (padded target token direction f) out_nodes.old out_rows.old
        out_nodes.new out_rows.new }
{
    let mut from: usize = 0;
    let mut to: usize = 0;
    for n in 0..nodes.len() / Encoding::NODE_WIDTH {
        let i = n * Encoding::NODE_WIDTH;
        let size = nodes[i];
        let count = size.max(target);
        let new = count - size;
        pad_nodes::write_node(nodes, i, count, new, direction, out_nodes);
        pad_rows::write_rows(rows, from, size, new, token, direction, out_rows, to);
        from += size as usize * Encoding::ROW_WIDTH;
        to += count as usize * Encoding::ROW_WIDTH;
    }
}
