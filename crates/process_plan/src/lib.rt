// The steps by which a template is applied, from its text and the special table (document 01, module 9).
#![tactic(auto)]

ghost use Rattle.std.specs.Prelude.{◌≡◌};
ghost use Rattle.process_plan.specs.Promises.{step_of, next_step, TableFits, AskPieceStep, AskPlan, Plans};

use process_steps::Step;
use record::Refusal;
use template_pieces::{Name, Piece};

// The step of a piece that comes, none if it is left out, and the place after it.
#[derive(Clone, Copy)]
pub struct NextStep {
    pub step: Option<Step>,
    pub next: usize,
}

// The steps of a template, one after another from the first place on, and how many: its pieces, with the number of an entry in the
// place of a special id. A special piece is a step only if special tokens are added. Refused with 19 to 21 for a part that cannot
// be read, and with 10 for an unknown special id.
pub fn plan(
    text: &[u8],
    add_special_tokens: bool,
    entries: &[u32],
    added: &[u8],
    steps: &mut [u32],
) -> Result<usize, Refusal>
    requires { AskPlan text.now entries.now added.now steps.old }
    ensures { Plans text.now add_special_tokens entries.now added.now result
        steps.new }
{
    let mut at: usize = 0;
    let mut count: usize = 0;
    // A loop: the next piece starts where this one says.
    loop {
        let Some(coming) = next_step(text, at, add_special_tokens, entries, added)? else {
            return Ok(count);
        };
        if let Some(step) = coming.step {
            process_steps::write_step(steps, count, step);
            count += 1;
        }
        at = coming.next;
    }
}

// What comes at a place of a template to its plan; nothing at its end.
fn next_step(
    text: &[u8],
    at: usize,
    add_special_tokens: bool,
    entries: &[u32],
    added: &[u8],
) -> Result<Option<NextStep>, Refusal>
    requires { TableFits entries.now added.now }
    ensures { result ≡ next_step entries.now added.now add_special_tokens text.now at }
{
    // No `?`: for this answer document 01 names `let .. else`.
    let coming = template_text::piece_from(text, at);
    let Ok(Some(found)) = coming else {
        let Err(why) = coming else {
            return Ok(None);
        };
        return Err(why);
    };
    let step = step_of(text, found.piece, add_special_tokens, entries, added)?;
    Ok(Some(NextStep {
        step,
        next: found.next,
    }))
}

// The step of a piece: of a sequence, or of the entry of a special id, whose number has room in a step because the entries are
// few; none for a special piece if no special tokens are added.
fn step_of(
    text: &[u8],
    piece: Piece,
    add_special_tokens: bool,
    entries: &[u32],
    added: &[u8],
) -> Result<Option<Step>, Refusal>
    requires { AskPieceStep text.now piece entries.now added.now }
    ensures { result ≡ step_of entries.now added.now add_special_tokens text.now piece }
{
    let type_id = piece.type_id;
    match piece.name {
        Name::A => Ok(Some(Step::First(type_id))),
        Name::B => Ok(Some(Step::Second(type_id))),
        Name::Special { start, length } => {
            if !add_special_tokens {
                return Ok(None);
            }
            let id = &text[start..start + length];
            let Some(i) = template_find::find(entries, added, id) else {
                return Err(Refusal::SpecialIdUnknown);
            };
            Ok(Some(Step::Special(type_id, i as u32)))
        }
    }
}
