// Reading a template text, and the text that is used where none is set (document 01, modules 7 and 8).
#![tactic(auto)]

ghost use Rattle.std.specs.Prelude.{cond, is_some, ◌≡◌, ◌≤◌, length};
ghost use Rattle.template_text.specs.Template.{read_template, short, template_of};
ghost use Rattle.template_text.specs.Comes.{comes_at, fault_in};
ghost use Rattle.template_text.specs.Promises.{RoomFor, Gathered, SmallId, told_numbers};
ghost use Rattle.template_text.specs.Used.{lent_text};

use record::{Fault, Refusal, Why};
use template_pieces::{Kind, Name, Piece};

// A piece of a text, and the place after it.
#[derive(Clone, Copy)]
pub struct PieceStep {
    pub piece: Piece,
    pub next: usize,
}

// The pieces of a template text, how many and their numbers, spare ones zero.
#[derive(Clone, Copy)]
pub struct Template {
    pub count: usize,
    pub pieces: [u32; Template::PIECES],
}

impl Template {
    pub const MOST_BYTES: usize = 4096;

    pub const MOST_PARTS: usize = 64;

    pub const PIECE_WIDTH: usize = 4;

    pub const PIECES: usize = Template::MOST_PARTS * Template::PIECE_WIDTH;
}

// Reads a template text. Refused with 8 above 4,096 bytes or 64 parts, then with 19 to 21 for its first part at fault.
pub fn read_template(text: &[u8]) -> Result<Template, Refusal>
    ensures { result ≡ template_of (read_template text.now) }
{
    if !is_short(text) {
        return Err(Refusal::TemplateTooLong);
    }
    let mut pieces = [0; Template::PIECES];
    let count = read_pieces(text, &mut pieces)?;
    Ok(Template { count, pieces })
}

// The pieces of a text, one after another from the first place on, up to the first part that cannot be read.
fn read_pieces(text: &[u8], pieces: &mut [u32]) -> Result<usize, Refusal>
    requires { RoomFor text.now pieces.old }
    ensures { Gathered text.now pieces.old result pieces.new }
{
    let mut at: usize = 0;
    let mut count: usize = 0;
    // A loop: the next piece starts where this one says. No `?`: for this answer document 01 names `let .. else`.
    loop {
        let coming = piece_from(text, at);
        let Ok(Some(step)) = coming else {
            let Err(why) = coming else {
                return Ok(count);
            };
            return Err(why);
        };
        let numbers = numbers_of(step.piece);
        let place = count * Template::PIECE_WIDTH;
        lists::copy(&numbers, 0, Template::PIECE_WIDTH, pieces, place);
        count += 1;
        at = step.next;
    }
}

// A piece as it is stored: its kind, its type, and its id's start and length, 0 for A and B.
fn numbers_of(piece: Piece) -> [u32; Template::PIECE_WIDTH]
    requires { SmallId piece.name }
    ensures { result ≡ told_numbers piece }
{
    let type_id = piece.type_id;
    match piece.name {
        Name::A => [Kind::A, type_id, 0, 0],
        Name::B => [Kind::B, type_id, 0, 0],
        Name::Special { start, length } => [Kind::SPECIAL, type_id, start as u32, length as u32],
    }
}

// What comes at a place: a piece, unless the text ends there. Refused with 19 to 21 for a part that cannot be read. Every walk over
// the pieces of a text goes from one to the next by this.
pub fn piece_from(text: &[u8], at: usize) -> Result<Option<PieceStep>, Refusal>
    ensures { result ≡ comes_at text.now at }
{
    let step = template_parts::part_from(text, at);
    let Some(part) = step.answer else {
        return Ok(None);
    };
    match template_pieces::read_piece(text, part.start, part.length) {
        Err(why) => Err(Refusal::PartUnreadable(fault_at(text, part.start, why))),
        Ok(piece) => Ok(Some(PieceStep {
            piece,
            next: step.next,
        })),
    }
}

// The fault of the part at a place. Its number is that of the text's parts without those from there on, so that no walk needs to
// count parts before one is at fault.
fn fault_at(text: &[u8], place: usize, why: Why) -> Fault
    requires { place ≤ length text.now }
    ensures { result ≡ fault_in text.now place why }
{
    let all = template_parts::count_parts(text);
    let left = template_parts::count_parts(&text[place..]);
    Fault {
        why,
        part: all - left,
        place,
    }
}

// Whether a text has no more bytes and parts than a template may.
pub fn is_short(text: &[u8]) -> bool
    ensures { result ≡ short text.now }
{
    if text.len() > Template::MOST_BYTES {
        return false;
    }
    // A text has at most one part more than it has bytes, so those of a short one need no counting.
    if text.len() < Template::MOST_PARTS {
        return true;
    }
    template_parts::count_parts(text) <= Template::MOST_PARTS
}

// Which of the two templates a text is for.
#[derive(Clone, Copy)]
pub enum Which {
    Single,
    Pair,
}

// The text of a template, or the text for an unset one. An empty text is no unset one.
pub fn text_used<'a>(text: Option<&'a [u8]>, unset: &'a [u8]) -> &'a [u8]
    ensures { result.now ≡ cond (is_some text.entry) (lent_text text.entry) unset.now }
{
    text.unwrap_or(unset)
}
