// The rows of a padded encoding, written: new ones on one side of its own (document 01, "Pad").
#![tactic(auto)]

ghost use Rattle.std.specs.Prelude.{◌≡◌, ◌+◌, ◌*◌, ◌≤◌, length, take, drop};
ghost use Rattle.std.proofs.lemmas.List.Edits.{sets};
ghost use Rattle.pad_rows.specs.Promises.{pad_numbers};
ghost use Rattle.pad_rows.specs.NewRows.{pad_row, beside};
ghost use Rattle.record.specs.Flat.{row_width};
ghost use Rattle.record_write.specs.Writing.{row_of};

use cut_plan::Direction;
use record::Encoding;
use record_write::NewRow;

// The token of the rows that padding adds. Its text lies in the added texts.
#[derive(Clone, Copy)]
pub struct PadToken {
    pub id: u32,
    pub type_id: u32,
    pub text_start: u32,
    pub text_length: u32,
}

// The rows of a node, `size` of them from `from` on, with `new` ones before or after them.
pub fn write_rows(
    rows: &[u32],
    from: usize,
    size: u32,
    new: u32,
    token: PadToken,
    direction: Direction,
    out: &mut [u32],
    to: usize,
)
    requires { (from + size * row_width ≤ length rows.now) × (to + (size + new) * row_width ≤ length out.old) }
    ensures { out.new ≡ sets out.old to (beside direction (pad_numbers token new)
        (take (size * row_width) (drop from rows.now))) }
{
    let own = size as usize * Encoding::ROW_WIDTH;
    match direction {
        Direction::Left => {
            write_pads(token, new, out, to);
            lists::copy(
                rows,
                from,
                own,
                out,
                to + new as usize * Encoding::ROW_WIDTH,
            )
        }
        Direction::Right => {
            lists::copy(rows, from, own, out, to);
            write_pads(token, new, out, to + own)
        }
    }
}

// New rows, one like the other.
fn write_pads(token: PadToken, count: u32, out: &mut [u32], to: usize)
    requires { to + count * row_width ≤ length out.old }
    ensures { out.new ≡ sets out.old to (pad_numbers token count) }
{
    for k in 0..count {
        let at = to + k as usize * Encoding::ROW_WIDTH;
        record_write::write_row(out, at, pad_row(token));
    }
}

fn pad_row(token: PadToken) -> NewRow
    ensures { row_of result ≡ pad_row token }
{
    NewRow {
        id: token.id,
        type_id: token.type_id,
        pool: 1,
        text_start: token.text_start,
        text_length: token.text_length,
        word_mark: 0,
        word: 0,
        offset_start: 0,
        offset_end: 0,
        special: 1,
        attention: 0,
    }
}
