// The piece that a part of a template is (document 01, module 7), and the numbers in it.
#![tactic(auto)]

ghost use Rattle.std.proofs.Math.Option.{map};
ghost use Rattle.std.specs.Prelude.{◌≡◌, ◌+◌, ◌≤◌};
ghost use lib.ListN.{length, take, drop};
ghost use Rattle.template_numbers.specs.Number.{read_number};
ghost use Rattle.template_pieces.specs.Piece.{sequence_a, sequence_of, named, by_name, read_part, piece_answer};
ghost use Rattle.template_pieces.specs.Promises.{without_number};

use record::Why;

const DOLLAR: u8 = b'$';

const COLON: u8 = b':';

const UPPER_A: u8 = b'A';

const LOWER_A: u8 = b'a';

const UPPER_B: u8 = b'B';

const LOWER_B: u8 = b'b';

// The kinds of piece where they are numbers: in the pieces and steps that are stored, which C reads.
#[derive(Clone, Copy)]
pub struct Kind {}

impl Kind {
    pub const A: u32 = 0;

    pub const B: u32 = 1;

    pub const SPECIAL: u32 = 2;
}

// What a piece stands for: the first or the second sequence, or a special id, by its place in the text.
#[derive(Clone, Copy)]
pub enum Name {
    A,
    B,
    Special { start: usize, length: usize },
}

#[derive(Clone, Copy)]
pub struct Piece {
    pub name: Name,
    pub type_id: u32,
}

// The piece of the part of a text that starts at a place and has so many bytes.
pub fn read_piece(text: &[u8], start: usize, length: usize) -> Result<Piece, Why>
    requires { start + length ≤ lib.ListN.length text.now }
    ensures { result ≡ piece_answer (read_part start (take length (drop start text.now))) }
{
    piece_of(&text[start..start + length], start)
}

// The piece of a part: what stands before its colon, with the type after it if there is one.
fn piece_of(part: &[u8], start: usize) -> Result<Piece, Why>
    ensures { result ≡ piece_answer (read_part start part.now) }
{
    let end = template_parts::find(part, 0, COLON);
    if end == part.len() {
        return named(part, start);
    }
    let rest = &part[end + 1..];
    let Some(type_id) = template_numbers::read_number(rest) else {
        return Err(without_number(rest));
    };
    // A second colon is no digit, so where a number was read there is none.
    let piece = named(&part[..end], start)?;
    Ok(Piece { type_id, ..piece })
}

// Why there is no type in what follows a part's first colon: a second colon goes before a bad number.
fn without_number(rest: &[u8]) -> Why
    ensures { result ≡ without_number rest.now }
{
    if template_parts::find(rest, 0, COLON) == rest.len() {
        return Why::BadTypeNumber;
    }
    Why::MoreThanOneColon
}

// The piece that a name is, without a type after it: a sequence after a dollar sign, else a special id.
fn named(id: &[u8], start: usize) -> Result<Piece, Why>
    ensures { result ≡ piece_answer (by_name (named start id.now)) }
{
    if id.len() > 0 {
        if id[0] == DOLLAR {
            return sequence_of(&id[1..]);
        }
    }
    Ok(Piece {
        name: Name::Special {
            start,
            length: id.len(),
        },
        type_id: 0,
    })
}

// The sequence that a text after a dollar sign names: a letter, or nothing or a number for A.
fn sequence_of(name: &[u8]) -> Result<Piece, Why>
    ensures { result ≡ piece_answer (by_name (sequence_of name.now)) }
{
    if name.len() == 0 {
        return Ok(Piece {
            name: Name::A,
            type_id: 0,
        });
    }
    if name.len() == 1 {
        return lettered(name);
    }
    numbered(name)
}

// The sequence that one byte names.
fn lettered(name: &[u8]) -> Result<Piece, Why>
    requires { length name.now ≡ 1 }
    ensures { result ≡ piece_answer (by_name (sequence_of name.now)) }
{
    let letter = name[0];
    if letter == UPPER_A || letter == LOWER_A {
        return Ok(Piece {
            name: Name::A,
            type_id: 0,
        });
    }
    if letter == UPPER_B || letter == LOWER_B {
        return Ok(Piece {
            name: Name::B,
            type_id: 0,
        });
    }
    numbered(name)
}

// A with the type that a number is.
fn numbered(name: &[u8]) -> Result<Piece, Why>
    ensures { result ≡ piece_answer (by_name (map sequence_a (read_number name.now))) }
{
    let Some(type_id) = template_numbers::read_number(name) else {
        return Err(Why::UnknownSequenceName);
    };
    Ok(Piece {
        name: Name::A,
        type_id,
    })
}
