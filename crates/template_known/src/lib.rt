// Whether the special ids of templates are in the table (document 01, module 8).
#![tactic(auto)]

ghost use Rattle.template_find.specs.Promises.{IdsInside};
ghost use Rattle.template_known.specs.Promises.{KnownIn, KnownBoth};

use record::Refusal;
use template_entries::Entry;
use template_pieces::Name;

// Whether the special ids of both templates are known. Refused with 10.
pub fn both_known(single: &[u8], pair: &[u8], entries: &[u32], added: &[u8]) -> Result<(), Refusal>
    requires { IdsInside entries.now added.now }
    ensures { KnownBoth single.now pair.now entries.now added.now result }
{
    all_known(single, entries, added)?;
    all_known(pair, entries, added)
}

// Whether every special id of a template is in the table. The walk over its parts and the table's entries is left at the
// first that is not. Any entry with the id will do, so the search begins at the first: those that templates name stand there.
pub fn all_known(text: &[u8], entries: &[u32], added: &[u8]) -> Result<(), Refusal>
    requires { IdsInside entries.now added.now }
    ensures { KnownIn text.now entries.now added.now result }
{
    let count = entries.len() / Entry::WIDTH;
    let mut at: usize = 0;
    // A loop: the next piece starts where this one says. Document 01 names the label, and for what comes `let .. else`, so no `?`.
    'parts: loop {
        let coming = template_text::piece_from(text, at);
        let Ok(Some(step)) = coming else {
            let Err(why) = coming else {
                return Ok(());
            };
            return Err(why);
        };
        at = step.next;
        let Name::Special { start, length } = step.piece.name else {
            continue;
        };
        let id = &text[start..start + length];
        for i in 0..count {
            if template_find::has_id(entries, i, added, id) {
                continue 'parts;
            }
        }
        break 'parts;
    }
    Err(Refusal::SpecialIdUnknown)
}
