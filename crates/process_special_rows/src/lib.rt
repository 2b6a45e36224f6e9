// The rows of a special piece, joined to the encoding in the output: after the rows of each of its nodes (document 01, module 9).
#![tactic(auto)]

ghost use mathlib.Core.List.{flat_map};
ghost use Rattle.std.specs.Prelude.{◌≡◌, ◌+◌, ◌*◌, ◌/◌, ◌≤◌, ◌<◌, length, get_or};
ghost use Rattle.std.proofs.lemmas.List.Edits.{sets};
ghost use Rattle.process_special_rows.specs.Promises.{AskLengthened, Lengthens};
ghost use Rattle.process_special_rows.specs.Lengthened.{special_rows, lengthened};
ghost use Rattle.record.specs.Flat.{row_width, row_numbers};
ghost use Rattle.record.specs.Tree.{Forest};
ghost use Rattle.record.specs.WellFormed.{Stores};
ghost use Rattle.record_write.specs.Writing.{row_of};
ghost use Rattle.template_entries.specs.Rows.{special_row};
ghost use Rattle.template_entries.specs.Table.{no_member, member_width, members_in};

use record::Encoding;
use record_write::NewRow;
use template_entries::Member;

// Every node's rows with the special ones after them, from the front of `out` on; the nodes count them where they stand.
// Returns the place after the last row.
pub fn lengthen(
    members: &[u32],
    first: usize,
    count: usize,
    type_id: u32,
    nodes: &mut [u32],
    rows: &[u32],
    out: &mut [u32],
) -> usize
    requires { AskLengthened members.now first count type_id nodes.old rows.now out.old }
    ensures { (f : Forest) → Stores nodes.old rows.now f → Lengthens (lengthened (special_rows members.now first count type_id) f) out.old nodes.new out.new result }
{
    let mut from: usize = 0;
    let mut to: usize = 0;
    for n in 0..nodes.len() / Encoding::NODE_WIDTH {
        let i = n * Encoding::NODE_WIDTH;
        let size = nodes[i];
        let own = size as usize * Encoding::ROW_WIDTH;
        lists::copy(rows, from, own, out, to);
        write_specials(members, first, count, type_id, out, to + own);
        nodes[i] = size + count as u32;
        from += own;
        to += own + count * Encoding::ROW_WIDTH;
    }
    to
}

// The rows of `count` members, from the first on, one after another.
pub fn write_specials(
    members: &[u32],
    first: usize,
    count: usize,
    type_id: u32,
    out: &mut [u32],
    to: usize,
)
    requires { (first + count ≤ length members.now / member_width) × (to + count * row_width ≤ length out.old) }
    ensures { out.new ≡ sets out.old to
        (flat_map row_numbers (special_rows members.now first count type_id)) }
{
    for k in 0..count {
        let at = to + k * Encoding::ROW_WIDTH;
        record_write::write_row(out, at, special_row(members, first + k, type_id));
    }
}

// The row of member k.
fn special_row(members: &[u32], k: usize, type_id: u32) -> NewRow
    requires { k < length members.now / member_width }
    ensures { row_of result ≡ special_row type_id (get_or (members_in members.now) k no_member) }
{
    let at = k * Member::WIDTH;
    NewRow {
        id: members[at + Member::ID],
        type_id,
        pool: 1,
        text_start: members[at + Member::TEXT_START],
        text_length: members[at + Member::TEXT_LENGTH],
        word_mark: 0,
        word: 0,
        offset_start: 0,
        offset_end: 0,
        special: 1,
        attention: 1,
    }
}
