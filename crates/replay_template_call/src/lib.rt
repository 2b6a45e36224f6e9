// The call of `read_template` that a stored case asks for, through the C interface, and whether it gave what is stored, for the
// program `replay_templates`. `rest` is what follows the two lists that a case begins with.
#![tactic(auto)]

ghost use Rattle.std.specs.Prelude.{◌∷◌, ◌≡◌};
ghost use Rattle.replay_template_call.specs.Promises.{StoredPieces, reading_of, fault_told};

use replay_answers::Outcome;
use template_text::Template;

// The most bytes of a text, some more than a template may have.
pub const TEXT: usize = 4100;

// What stands in each lent number before a call.
const BEFORE: u32 = 7;

const BEFORE_COUNT: usize = 7;

// `23 text nothing refusal count part place pieces`
pub fn read_template(text: &[u32], nothing: &[u32], rest: &[u32]) -> Outcome
    ensures { result ≡ Outcome.Same → StoredPieces (reading_of text.now).refusal (reading_of text.now).numbers
        (fault_told text.now) rest.now }
{
    if nothing.len() != 0 {
        return Outcome::Bad;
    }
    let mut bytes = [0u8; TEXT];
    text_read(text, rest, &mut bytes)
}

fn text_read(text: &[u32], rest: &[u32], bytes: &mut [u8]) -> Outcome
    ensures { result ≡ Outcome.Same → StoredPieces (reading_of text.now).refusal (reading_of text.now).numbers
        (fault_told text.now) rest.now }
{
    let Some(count) = replay_bytes::text_of(text, bytes) else {
        return Outcome::Bad;
    };
    let mut pieces = [BEFORE; Template::PIECES];
    let mut number = BEFORE_COUNT;
    let mut fault = [BEFORE_COUNT; 2];
    let refusal = c_templates::noddrefyr_read_template(
        &bytes[..count],
        &mut pieces,
        &mut number,
        &mut fault,
    );
    pieces_stored(refusal, number, fault, &pieces, rest)
}

// Whether the rest of a case is the refusal, the number of pieces, the part at fault and its place, and the list of pieces.
fn pieces_stored(
    refusal: u32,
    count: usize,
    fault: [usize; 2],
    pieces: &[u32; Template::PIECES],
    rest: &[u32],
) -> Outcome
    ensures { result ≡ Outcome.Same → StoredPieces refusal (count ∷ pieces.now) fault rest.now }
{
    let stored = replay_cases::last_list(rest, 4);
    let start = stored.start;
    let end = stored.end;
    if end - start != Template::PIECES {
        return Outcome::Bad;
    }
    if replay_cases::number_at(rest, 0) != refusal {
        return Outcome::Differs;
    }
    if replay_cases::number_at(rest, 1) as usize != count {
        return Outcome::Differs;
    }
    if replay_cases::number_at(rest, 2) as usize != fault[0] {
        return Outcome::Differs;
    }
    if replay_cases::number_at(rest, 3) as usize != fault[1] {
        return Outcome::Differs;
    }
    replay_answers::compared(replay_answers::equal(pieces, &rest[start..end]))
}
