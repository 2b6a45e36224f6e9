// The lines of an input that is read in pieces: what of a piece belongs to a line, and what a line turned out to be. Nothing is
// read here; `input` reads.
#![tactic(auto)]

ghost use Rattle.std.specs.Prelude.{true, false, ◌≡◌, ◌≤◌, is_some, IfSome, IfOk};
ghost use Rattle.io.specs.Counts.{IsPrefixLen};
ghost use Rattle.input_lines.specs.Promises.{TakesBytes, Ended, NotEnded};

const NEWLINE: u8 = b'\n';

// How many bytes are read at once, at most.
pub const PIECE: usize = 65536;

// What is read and not yet taken: the bytes of the piece from `at` up to `end`. The input is open until a read gives nothing,
// because the input has ended or because the read failed.
#[derive(Clone, Copy)]
pub struct Unread {
    pub at: usize,
    pub end: usize,
    pub open: bool,
    pub failed: bool,
}

// A line of the input, if there is one: how many of its buffer's bytes it is.
#[derive(Clone, Copy)]
pub struct Line {
    pub held: Option<Result<usize, TooLong>>,
    pub unread: Unread,
}

// What a line is told as that has more bytes than its buffer.
#[derive(Clone, Copy)]
pub struct TooLong {}

// What a line has so far, counted as `lines::keep` does, and whether its newline has come.
#[derive(Clone, Copy)]
pub struct Gathered {
    pub ended: bool,
    pub held: usize,
    pub unread: Unread,
}

// Puts what is read behind the bytes that the line holds, up to its newline.
pub fn take(piece: &[u8; PIECE], line: &mut [u8], before: usize, unread: Unread) -> Gathered
    ensures { TakesBytes piece.now unread.at unread result }
{
    let end = within(unread.end);
    let mut held = before;
    for at in unread.at..end {
        let byte = piece[at];
        if byte == NEWLINE {
            return ended(held, at + 1, end);
        }
        held = lines::keep(line, held, byte);
        if held > line.len() {
            return pass(piece, held, at + 1, unread);
        }
    }
    not_ended(held, end.max(unread.at), unread)
}

// Passes over the rest of a line that is too long, up to its newline.
fn pass(piece: &[u8; PIECE], held: usize, from: usize, unread: Unread) -> Gathered
    ensures { TakesBytes piece.now from unread result }
{
    let end = within(unread.end);
    for at in from..end {
        if piece[at] == NEWLINE {
            return ended(held, at + 1, end);
        }
    }
    not_ended(held, end.max(from), unread)
}

// A piece has no bytes past its end.
fn within(end: usize) -> usize
    ensures { result ≤ 65536 }
{
    end.min(PIECE)
}

// What a line has once its newline has come. The last read gave that byte, so it neither failed nor met the input's end.
fn ended(held: usize, at: usize, end: usize) -> Gathered
    ensures { Ended at result }
{
    let unread = Unread {
        at,
        end,
        open: true,
        failed: false,
    };
    Gathered {
        ended: true,
        held,
        unread,
    }
}

// What it has if the piece has no newline for it.
fn not_ended(held: usize, at: usize, before: Unread) -> Gathered
    ensures { NotEnded at before result }
{
    Gathered {
        ended: false,
        held,
        unread: Unread { at, ..before },
    }
}

// There is a line if its newline has come, or bytes with none after them. What a failed read cut off is none.
pub fn told(line: &[u8], gathered: Gathered) -> Line
    ensures prefix_len { IfSome result.held (λ held. IfOk held (λ count. IsPrefixLen count line.now)) }
    ensures failed_value { is_some result.held ≡ true → result.unread.failed ≡ false }
{
    let unread = gathered.unread;
    if unread.failed || !(gathered.ended || gathered.held > 0) {
        return Line { held: None, unread };
    }
    let held = if gathered.held > line.len() {
        Err(TooLong {})
    } else {
        Ok(gathered.held)
    };
    Line {
        held: Some(held),
        unread,
    }
}
