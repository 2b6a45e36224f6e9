// The template that `process` uses: which of the two, and whether it can be used; and where the second encoding stands (document
// 01, module 9).
#![tactic(auto)]

ghost use Rattle.std.specs.Prelude.{not, ◌&&◌, cond, is_some, ◌≡◌};
ghost use Rattle.template_text.specs.Used.{lent_text};
ghost use Rattle.template_find.specs.Promises.{IdsInside};
ghost use Rattle.process_template.specs.Promises.{OneOrTwoStored, SecondAt, ChecksTemplate};

use record::{Encoding, Refusal, Spot};
use template_walk::Named;

// The text of the template that is used, which is the pair's where there is a second encoding.
pub fn text_for<'a>(
    second: bool,
    single: Option<&'a [u8]>,
    unset_single: &'a [u8],
    pair: Option<&'a [u8]>,
    unset_pair: &'a [u8],
) -> &'a [u8]
    ensures { result.now ≡ cond second (cond (is_some pair.entry) (lent_text pair.entry)
        unset_pair.now) (cond (is_some single.entry) (lent_text single.entry)
        unset_single.now) }
{
    if second {
        template_text::text_used(pair, unset_pair)
    } else {
        template_text::text_used(single, unset_single)
    }
}

// Where the second encoding stands, or where it would.
pub fn second_spot(nodes: &[u32], rows: &[u32]) -> Spot
    requires { OneOrTwoStored nodes.now rows.now }
    ensures { SecondAt nodes.now rows.now result }
{
    let first = record_extent::measure(nodes, 0, 1);
    Spot {
        node: first.nodes * Encoding::NODE_WIDTH,
        row: first.rows * Encoding::ROW_WIDTH,
    }
}

// Whether a template can be used, with a second encoding or without. Refused with 8, 19 to 21, 11, then 10 if special tokens
// are added.
pub fn check_template(
    text: &[u8],
    second: bool,
    add_special_tokens: bool,
    entries: &[u32],
    added: &[u8],
) -> Result<(), Refusal>
    requires { IdsInside entries.now added.now }
    ensures { ChecksTemplate text.now second add_special_tokens entries.now added.now
        result }
{
    let named = template_walk::sequences_in(text)?;
    if lacks_second(named, second) {
        return Err(Refusal::BWithoutSecond);
    }
    if !add_special_tokens {
        return Ok(());
    }
    template_known::all_known(text, entries, added)
}

// Whether a template names the second encoding, and there is none.
fn lacks_second(named: Named, second: bool) -> bool
    ensures { result ≡ (not second && named.b) }
{
    if second {
        return false;
    }
    named.b
}
