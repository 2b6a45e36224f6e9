// Checking a pair of templates against a special table, and counting the tokens that a template adds (document 01, module 8).
#![tactic(auto)]

ghost use Rattle.std.specs.Prelude.{◌≡◌, is_some};
ghost use Rattle.template_text.specs.Used.{lent_text};
ghost use Rattle.template_validate.specs.Validation.{refused_in, of_validity, validate_answer, count_answer};

use record::{Fault, Refusal};
use template_text::Which;

// Why two templates cannot be used: a refusal, and for a part that cannot be read the template that it is in.
#[derive(Clone, Copy)]
pub enum Invalid {
    Refused(Refusal),
    Unreadable(Which, Fault),
}

// Whether two templates can be used with a table. Refused with 15, 12, then 8 and 19 to 21 for the single template, 8 and 19 to 21
// for the pair's, 9 and 10. `None` is an unset template; an empty text is a set one.
pub fn validate(
    single: Option<&[u8]>,
    pair: Option<&[u8]>,
    entries: &[u32],
    members: &[u32],
    added: &[u8],
) -> Result<(), Invalid>
    ensures { result ≡ validate_answer (is_some single.entry) (lent_text single.entry)
        (is_some pair.entry) (lent_text pair.entry) entries.now members.now added.now }
{
    let table = template_table::check_table(entries, members, added);
    if let Err(why) = table {
        return Err(Invalid::Refused(why));
    }
    let single_text = template_text::text_used(single, b"$0");
    let pair_text = template_text::text_used(pair, b"$A:0 $B:1");
    let in_single = template_walk::sequences_in(single_text);
    if let Err(why) = in_single {
        return Err(refused_in(Which::Single, why));
    }
    let in_pair = template_walk::sequences_in(pair_text);
    match in_pair {
        Err(why) => Err(refused_in(Which::Pair, why)),
        Ok(named) => {
            if !named.a {
                return Err(Invalid::Refused(Refusal::PairLacksAOrB));
            }
            if !named.b {
                return Err(Invalid::Refused(Refusal::PairLacksAOrB));
            }
            checked(template_known::both_known(single_text, pair_text, entries, added))
        }
    }
}

// Refused for what stands in one of the templates, which is told where a part of it is at fault.
fn refused_in(which: Which, why: Refusal) -> Invalid
    ensures { result ≡ refused_in which why }
{
    match why.fault() {
        None => Invalid::Refused(why),
        Some(fault) => Invalid::Unreadable(which, fault),
    }
}

// The answer of the last check.
fn checked(known: Result<(), Refusal>) -> Result<(), Invalid>
    ensures { result ≡ of_validity known }
{
    match known {
        Ok(()) => Ok(()),
        Err(why) => Err(Invalid::Refused(why)),
    }
}

// How many tokens a template adds: the ids of its special pieces, where unknown ones add none. Refused with 15, 12, 8, then
// with 19 to 21 for its first part at fault.
pub fn count_added(
    text: Option<&[u8]>,
    which: Which,
    entries: &[u32],
    members: &[u32],
    added: &[u8],
) -> Result<u64, Refusal>
    ensures { result ≡ count_answer (is_some text.entry) (lent_text text.entry) which entries.now
        members.now added.now }
{
    template_table::check_table(entries, members, added)?;
    match which {
        Which::Single => template_walk::count_pieces(
            template_text::text_used(text, b"$0"),
            entries,
            added,
        ),
        Which::Pair => template_walk::count_pieces(
            template_text::text_used(text, b"$A:0 $B:1"),
            entries,
            added,
        ),
    }
}
