// The C interface of the check of templates and of counting what they add. Each function returns the number of its refusal, 0
// for none, and gives its values through lent numbers, which a refusal leaves as they were, but for a part at fault.
// include/noddrefyr.h is made from this file too.
#![tactic(auto)]

ghost use Rattle.std.specs.Prelude.{[], ◌∷◌, ◌≡◌};
ghost use Rattle.c_crossing.specs.Crossing.{Crosses};
ghost use Rattle.c_validate.specs.Answers.{validity_crossed, added_crossed, added_fault};
ghost use Rattle.c_validate.specs.Options.{which_of};
ghost use Rattle.template_text.specs.Used.{which_number};
ghost use Rattle.template_validate.specs.Validation.{validate_answer, count_answer};

use template_text::Which;
use template_validate::Invalid;

// Whether a template for one encoding and one for a pair can be used with a special table. One that is not set is `$0`, or
// `$A:0 $B:1`, whatever its text. Refused with 15, 12, then 8, 19, 20, 21 for the single, 8, 19, 20, 21 for the pair, 9, 10. With
// 19 to 21 fault is the template (0 the single, 1 the pair), the number of its part at fault and the place of that part's first byte,
// both from 0, and else it stays as it was.
#[unsafe(no_mangle)]
pub extern "C" fn noddrefyr_validate(
    single_set: bool,
    single: &[u8],
    pair_set: bool,
    pair: &[u8],
    entries: &[u32],
    members: &[u32],
    added: &[u8],
    fault: &mut [usize; 3],
) -> u32
    ensures { Crosses
        (validity_crossed fault.old (validate_answer single_set single.now pair_set pair.now
        entries.now members.now added.now))
        result fault.new }
{
    let single = single_set.then_some(single);
    let pair = pair_set.then_some(pair);
    let found = template_validate::validate(single, pair, entries, members, added);
    match found {
        Ok(()) => 0,
        Err(Invalid::Refused(k)) => k.number(),
        Err(Invalid::Unreadable(which, found)) => {
            *fault = [which_number(which), found.part, found.place];
            let why = found.why;
            why.number()
        }
    }
}

// The number of a template as it crosses the C interface.
pub fn which_number(which: Which) -> usize
    ensures { result ≡ which_number which }
{
    match which {
        Which::Single => 0,
        Which::Pair => 1,
    }
}

pub fn which_of(is_pair: bool) -> Which
    ensures { result ≡ which_of is_pair }
{
    if is_pair { Which::Pair } else { Which::Single }
}

// How many tokens a template adds, where an unknown special id adds none; one that is not set is `$0`, or `$A:0 $B:1` if it is
// the pair's. Refused with 15, 12, 8, 19, 20, 21; with the last three fault is the number of the part at fault and the place of its
// first byte in the text, both from 0, and else it stays as it was.
#[unsafe(no_mangle)]
pub extern "C" fn noddrefyr_count_added(
    set: bool,
    text: &[u8],
    is_pair: bool,
    entries: &[u32],
    members: &[u32],
    added: &[u8],
    count: &mut u64,
    fault: &mut [usize; 2],
) -> u32
    ensures answer { Crosses
        (added_crossed (count.old ∷ []) (count_answer set text.now (which_of is_pair) entries.now
        members.now added.now))
        result (count.new ∷ []) }
    ensures part { fault.new ≡ added_fault fault.old (count_answer set text.now
        (which_of is_pair) entries.now members.now added.now) }
{
    let which = which_of(is_pair);
    let text = set.then_some(text);
    let found = template_validate::count_added(text, which, entries, members, added);
    match found {
        Err(k) => c_crossing::fault_told(k, fault),
        Ok(sum) => {
            *count = sum;
            0
        }
    }
}
