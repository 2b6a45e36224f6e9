// The window lister (document 01): reads lines `rows max stride L` or `.. R` from standard input, and prints for each the
// windows of the cut, `whole`, `refused 3` or `bad line`.
//
// What a line asks is a function of `listing_request`, what is answered are functions of `listing`, `input` gathers the lines
// and `output` writes. Here the output is gathered into blocks. A read or a write that fails ends the program, with a line on
// standard error.
#![tactic(auto)]

ghost use Rattle.std.specs.Prelude.{IfOk, IfSome};
ghost use Rattle.io.specs.Counts.{IsPrefixLen};
ghost use Rattle.listing.specs.Promises.{LineRoom, ReadyOutput};

use input_lines::{PIECE, TooLong, Unread};
use listing_request::Request;

// A line that asks for a cut has at most 34 bytes, and one that is longer than its buffer is bad.
const LINE: usize = 64;

fn main(rt: HostRuntime) {
    let mut piece = [0u8; PIECE];
    let mut line = [0u8; LINE];
    let mut out = io::large_buffer();
    list_input(&rt, &mut piece, &mut line, &mut out);
}

// Answers all of the input. A proved loop has to end, and nothing says that an input does: so the turns are counted, up to a
// number that no run uses up.
fn list_input(
    rt: &(impl Input + Print + Eprint),
    piece: &mut [u8; PIECE],
    line: &mut [u8; LINE],
    out: &mut [u8],
)
    requires { ReadyOutput out.old 0 }
{
    let mut unread = input::start();
    let mut waiting: usize = 0;
    for _ in 0..u64::MAX {
        let next = input::next_line(rt, piece, line, unread);
        unread = next.unread;
        let Some(held) = next.held else {
            break;
        };
        let Some(after) = answer(rt, asked(line, held), out, waiting) else {
            return;
        };
        waiting = after;
    }
    finish(rt, out, waiting, unread);
}

// What a line asks. A line longer than its buffer is bad.
fn asked(line: &[u8], held: Result<usize, TooLong>) -> Option<Request>
    requires { IfOk held (λ count. IsPrefixLen count line.now) }
{
    match held {
        Ok(count) => listing_request::read_request(&line[..count]),
        Err(_) => None,
    }
}

// Puts an answer behind what waits, and answers how many bytes wait then: none are left to be written once a write has failed.
fn answer(
    rt: &(impl Print + Eprint),
    asked: Option<Request>,
    out: &mut [u8],
    waiting: usize,
) -> Option<usize>
    requires { ReadyOutput out.old waiting }
    ensures { IfSome result (λ bytes. ReadyOutput out.new bytes) }
{
    let room = make_room(rt, out, waiting)?;
    let next = listing::write_first(asked, out, room);
    match asked {
        None => Some(next),
        Some(request) => list_windows(rt, request, out, next),
    }
}

// Puts the windows behind what waits, in as many blocks as they need.
fn list_windows(
    rt: &(impl Print + Eprint),
    request: Request,
    out: &mut [u8],
    waiting: usize,
) -> Option<usize>
    requires { ReadyOutput out.old waiting }
    ensures { IfSome result (λ bytes. ReadyOutput out.new bytes) }
{
    let count = listing::count(request);
    let mut next: u32 = 0;
    let mut place = waiting;
    // A while: a block has as many windows as there is room for.
    while next < count {
        let room = make_room(rt, out, place)?;
        let step = listing::write_windows(request, next, out, room);
        next = step.next;
        place = step.at;
    }
    Some(place)
}

// The place behind what waits, once there is room for a line after it; none if a write failed.
fn make_room(rt: &(impl Print + Eprint), out: &[u8], waiting: usize) -> Option<usize>
    requires { ReadyOutput out.now waiting }
    ensures { IfSome result (λ bytes. LineRoom out.now bytes) }
{
    if out.len() - waiting >= listing::LONGEST {
        return Some(waiting);
    }
    if output::print(rt, &out[..waiting]).all {
        Some(0)
    } else {
        None
    }
}

// Writes what waits once the input has ended. After a read that failed standard error has a line already.
fn finish(rt: &(impl Print + Eprint), out: &[u8], waiting: usize, unread: Unread)
    requires { ReadyOutput out.now waiting }
{
    if unread.failed {
        output::write(rt, &out[..waiting]);
        return;
    }
    output::print(rt, &out[..waiting]);
}
