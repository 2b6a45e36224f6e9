// The check of a special table (document 01, module 8).
#![tactic(auto)]

ghost use Rattle.std.specs.Prelude.{◌≡◌, ◌/◌};
ghost use Rattle.template_entries.specs.Table.{read_table};
ghost use Rattle.template_table.specs.Check.{table_answer};

use record::Refusal;
use template_entries::{Entry, Member};

// A table has at most this many entries.
const MOST_ENTRIES: usize = 64;

// Whether a table can be used. Refused with 15, then with 12.
pub fn check_table(entries: &[u32], members: &[u32], added: &[u8]) -> Result<(), Refusal>
    ensures { result ≡ table_answer (read_table entries.now members.now added.now) }
{
    if entries.len() % Entry::WIDTH != 0 {
        return Err(Refusal::MalformedTable);
    }
    if members.len() % Member::WIDTH != 0 {
        return Err(Refusal::MalformedTable);
    }
    if entries.len() / Entry::WIDTH > MOST_ENTRIES {
        return Err(Refusal::MalformedTable);
    }
    if !template_entries::entries_fit(entries, members.len() / Member::WIDTH, added.len()) {
        return Err(Refusal::MalformedTable);
    }
    if !template_entries::members_fit(members, added.len()) {
        return Err(Refusal::MalformedTable);
    }
    if !template_entries::numbers_agree(entries) {
        return Err(Refusal::IdsAndTextsDiffer);
    }
    Ok(())
}
