// Whether `process` can be done, and by which steps: all that is decided before anything is written (document 01, module 9).
#![tactic(auto)]

ghost use Rattle.std.specs.Prelude.{is_some, ◌≡◌, ◌*◌, length};
ghost use Rattle.template_text.specs.Template.{most_parts, piece_width};
ghost use Rattle.template_text.specs.Used.{lent_text};
ghost use Rattle.process_check.specs.Promises.{DecidesProcess};
ghost use Rattle.process_check.specs.Process.{process_outcome};

use record::{Refusal, Spot};

// So many steps to take, with the spot of the second encoding.
#[derive(Clone, Copy)]
pub struct Take {
    pub second: Spot,
    pub count: usize,
}

// The steps by which one or two encodings are put together, written to `steps`; or the refusal that comes first: 1 a malformed
// record, 15 and 12 a table, 8 and 19 to 21 the template that is used, 11 a template that names a second encoding where there
// is none, 10 an unknown special id where special tokens are added.
pub fn decide<'a>(
    nodes: &[u32],
    rows: &[u32],
    single: Option<&'a [u8]>,
    pair: Option<&'a [u8]>,
    entries: &[u32],
    members: &[u32],
    added: &[u8],
    add_special_tokens: bool,
    steps: &mut [u32],
) -> Result<Take, Refusal>
    requires { length steps.old ≡ most_parts * piece_width }
    ensures { DecidesProcess
        (process_outcome nodes.now rows.now (is_some single.entry) (lent_text single.entry)
        (is_some pair.entry) (lent_text pair.entry) entries.now members.now added.now
        add_special_tokens)
        nodes.now rows.now entries.now members.now steps.new result }
{
    if !record_check::is_one_or_two(nodes, rows) {
        return Err(Refusal::MalformedRecord);
    }
    template_table::check_table(entries, members, added)?;
    let second = process_template::second_spot(nodes, rows);
    let has_second = second.node < nodes.len();
    let text = process_template::text_for(has_second, single, b"$0", pair, b"$A:0 $B:1");
    process_template::check_template(text, has_second, add_special_tokens, entries, added)?;
    let count = process_plan::plan(text, add_special_tokens, entries, added, steps)?;
    Ok(Take { second, count })
}
