// The rows of a special piece, joined to the encoding in the output: after the rows of each of its nodes (document 01, module 9).
#![tactic(auto)]

ghost use Rattle.std.specs.Prelude.{◌+◌, ◌*◌};
ghost use Rattle.process_special.specs.Promises.{AskSpecial, AppendsSpecial};

use record::Encoding;

// `count` members of the special table, from the first on, as rows of this type, joined to the encoding at the front of the
// output. An encoding without windows gets them in place; else its rows go by way of the working store.
pub fn append_special(
    members: &[u32],
    first: usize,
    count: usize,
    type_id: u32,
    out_nodes: &mut [u32],
    out_rows: &mut [u32],
    working_rows: &mut [u32],
)
    requires { AskSpecial members.now first count type_id out_nodes.old out_rows.old working_rows.old }
    ensures { AppendsSpecial members.now first count type_id out_nodes.old
        out_rows.old out_nodes.new out_rows.new }
{
    if out_nodes[1] != 0 {
        append_along(
            members,
            first,
            count,
            type_id,
            out_nodes,
            out_rows,
            working_rows,
        );
        return;
    }
    let size = out_nodes[0];
    let end = size as usize * Encoding::ROW_WIDTH;
    process_special_rows::write_specials(members, first, count, type_id, out_rows, end);
    out_nodes[0] = size + count as u32;
}

// The same for an encoding with windows: its nodes stay in their places, and its rows move apart.
pub fn append_along(
    members: &[u32],
    first: usize,
    count: usize,
    type_id: u32,
    out_nodes: &mut [u32],
    out_rows: &mut [u32],
    working_rows: &mut [u32],
)
    requires { AskSpecial members.now first count type_id out_nodes.old out_rows.old working_rows.old }
    ensures { AppendsSpecial members.now first count type_id out_nodes.old
        out_rows.old out_nodes.new out_rows.new }
{
    let size = record_extent::measure(out_nodes, 0, 1);
    let nodes = size.nodes * Encoding::NODE_WIDTH;
    let rows = size.rows * Encoding::ROW_WIDTH;
    let end = process_special_rows::lengthen(
        members,
        first,
        count,
        type_id,
        &mut out_nodes[..nodes],
        &out_rows[..rows],
        working_rows,
    );
    lists::copy(working_rows, 0, end, out_rows, 0);
}
