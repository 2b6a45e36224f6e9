// Standard input for programs: pieces of the input as they are read, and lines gathered from them.
//
// A read that fails is met in `not_read` alone: a line on standard error says so, and why, and no line is found after it, nor
// one that it cut off. A program is a loop over `next_line`, or over `read_piece`.
#![tactic(auto)]

ghost use Rattle.std.specs.Prelude.{true, false, ◌≡◌, is_some, IfSome, IfOk};
ghost use Rattle.io.specs.Counts.{IsPrefixLen};

use input_lines::{Gathered, Line, PIECE, Unread};
use std::io::{Error, Read};

// An input of which nothing is read.
pub fn start() -> Unread
    ensures { result.end ≡ 0 }
{
    Unread {
        at: 0,
        end: 0,
        open: true,
        failed: false,
    }
}

// The next line, without its newline, put at the start of `line`. The last one may lack its newline.
pub fn next_line(
    rt: &(impl Input + Eprint),
    piece: &mut [u8; PIECE],
    line: &mut [u8],
    before: Unread,
) -> Line
    ensures prefix_len { IfSome result.held (λ held. IfOk held (λ count. IsPrefixLen count line.new)) }
    ensures failed_value { is_some result.held ≡ true → result.unread.failed ≡ false }
{
    let gathered = gather(rt, piece, line, before);
    input_lines::told(line, gathered)
}

// Reads pieces until a newline has come, or the input's end. A proved loop has to end, and nothing says that an input does: so
// the turns are counted, up to a number that no run uses up.
fn gather(
    rt: &(impl Input + Eprint),
    piece: &mut [u8; PIECE],
    line: &mut [u8],
    before: Unread,
) -> Gathered {
    let mut gathered = input_lines::take(piece, line, 0, before);
    for _ in 0..u64::MAX {
        if gathered.ended || !gathered.unread.open {
            break;
        }
        let unread = read_piece(rt, piece);
        gathered = input_lines::take(piece, line, gathered.held, unread);
    }
    gathered
}

// The next bytes of the input, put at the start of the piece: none if a signal came or nothing is there yet, and once the input has
// ended or a read has failed, which closes it.
pub fn read_piece(rt: &(impl Input + Eprint), piece: &mut [u8; PIECE]) -> Unread
    ensures { IsPrefixLen result.end piece.new }
{
    let mut reader = rt.reader();
    match reader.read(piece) {
        Ok(end) => Unread {
            at: 0,
            end,
            open: end > 0,
            failed: false,
        },
        Err(error) => not_read(rt, &error),
    }
}

// After a read that gave an error: nothing is read, and the next turn reads again, or the input has failed.
fn not_read(rt: &impl Eprint, error: &Error) -> Unread
    ensures { result.end ≡ 0 }
{
    let again = input_output::again_after(error);
    if !again {
        // nothing can be done if that fails too
        let _ = eprintln!(rt; "standard input: {error}");
    }
    Unread {
        at: 0,
        end: 0,
        open: again,
        failed: !again,
    }
}
