// `process` with a template (document 01, module 9): encodings put together as a template's pieces say.
#![tactic(auto)]

ghost use Rattle.std.specs.Prelude.{is_some};
ghost use Rattle.template_text.specs.Used.{lent_text};
ghost use Rattle.record.specs.Working.{WritesWith};
ghost use Rattle.process_check.specs.Process.{process_outcome};

use process_check::Take;
use record::{Refusal, Written};
use template_text::Template;

// One or two encodings, put together as the template for one or for two says: each piece that names an encoding is that
// encoding with the piece's type and its sequence, each special piece its rows of the table, if special tokens are added.
// Refuses 1 a malformed record, 15 and 12 a table, 8 and 19 to 21 the template that is used, 11 a template that names a second
// encoding where there is none, 10 an unknown special id where special tokens are added, 2 no room in the output or in the
// working store. The working store is zeroed on success.
pub fn process<'a>(
    nodes: &[u32],
    rows: &[u32],
    single: Option<&'a [u8]>,
    pair: Option<&'a [u8]>,
    entries: &[u32],
    members: &[u32],
    added: &[u8],
    add_special_tokens: bool,
    out_nodes: &mut [u32],
    out_rows: &mut [u32],
    working_nodes: &mut [u32],
    working_rows: &mut [u32],
) -> Result<Written, Refusal>
    ensures { WritesWith
        (process_outcome nodes.now rows.now (is_some single.entry) (lent_text single.entry)
        (is_some pair.entry) (lent_text pair.entry) entries.now members.now added.now
        add_special_tokens out_nodes.old out_rows.old working_nodes.old
        working_rows.old) result out_nodes.old
        out_rows.old working_nodes.old working_rows.old out_nodes.new
        out_rows.new working_nodes.new working_rows.new }
{
    let mut steps = [0; Template::PIECES];
    let Take { second, count } = process_check::decide(
        nodes,
        rows,
        single,
        pair,
        entries,
        members,
        added,
        add_special_tokens,
        &mut steps,
    )?;
    process_apply::apply_steps(
        nodes,
        rows,
        second,
        entries,
        members,
        &steps,
        count,
        out_nodes,
        out_rows,
        working_nodes,
        working_rows,
    )
}
