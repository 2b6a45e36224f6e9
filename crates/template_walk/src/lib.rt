// Walks over the pieces of a template text: which sequences it names, and how many tokens it adds (document 01, module 8).
#![tactic(auto)]

ghost use Rattle.std.specs.Prelude.{◌≡◌};
ghost use Rattle.template_find.specs.Promises.{IdsInside};
ghost use Rattle.template_text.specs.Template.{read_template};
ghost use Rattle.template_walk.specs.Promises.{CountedIn, IdsOf};
ghost use Rattle.template_walk.specs.Sequences.{sequences_answer};

use record::Refusal;
use template_pieces::Name;

// Whether a template names the first and the second sequence.
#[derive(Clone, Copy)]
pub struct Named {
    pub a: bool,
    pub b: bool,
}

// Whether a template names A and B. Refused with 8, then with 19 to 21 for its first part at fault.
pub fn sequences_in(text: &[u8]) -> Result<Named, Refusal>
    ensures { result ≡ sequences_answer (read_template text.now) }
{
    if !template_text::is_short(text) {
        return Err(Refusal::TemplateTooLong);
    }
    let mut a = false;
    let mut b = false;
    let mut at: usize = 0;
    // A loop: the next piece starts where this one says. No `?`: for this answer document 01 names `let .. else`.
    loop {
        let coming = template_text::piece_from(text, at);
        let Ok(Some(step)) = coming else {
            let Err(why) = coming else {
                return Ok(Named { a, b });
            };
            return Err(why);
        };
        match step.piece.name {
            Name::A => a = true,
            Name::B => b = true,
            Name::Special { .. } => {}
        }
        at = step.next;
    }
}

pub fn count_pieces(text: &[u8], entries: &[u32], added: &[u8]) -> Result<u64, Refusal>
    requires { IdsInside entries.now added.now }
    ensures { CountedIn text.now entries.now added.now result }
{
    if !template_text::is_short(text) {
        return Err(Refusal::TemplateTooLong);
    }
    let mut sum: u64 = 0;
    let mut at: usize = 0;
    // A loop and a `let .. else`, as in `sequences_in`.
    loop {
        let coming = template_text::piece_from(text, at);
        let Ok(Some(step)) = coming else {
            let Err(refusal) = coming else {
                return Ok(sum);
            };
            return Err(refusal);
        };
        at = step.next;
        if let Name::Special { start, length } = step.piece.name {
            sum += ids_of(entries, added, &text[start..start + length]);
        }
    }
}

// The number of ids of a special id, 0 if it is unknown.
pub fn ids_of(entries: &[u32], added: &[u8], id: &[u8]) -> u64
    requires { IdsInside entries.now added.now }
    ensures { IdsOf entries.now added.now id.now result }
{
    let Some(i) = template_find::find(entries, added, id) else {
        return 0;
    };
    let members = template_entries::members_of(entries, i);
    members.count as u64
}
