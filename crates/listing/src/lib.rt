// The lines with which the window lister answers (document 01).
#![tactic(auto)]

ghost use Rattle.std.specs.Prelude.{Some, [], ◌∷◌, ◌≡◌, ◌≤◌, length, get_or};
ghost use Rattle.cut_plan.specs.Cut.{bounds};
ghost use Rattle.listing_text.specs.Promises.{WroteText};
ghost use Rattle.listing.specs.Answer.{windows_listed, count_line, first_line, window_line};
ghost use Rattle.listing.specs.Promises.{LineRoom, Lists};

use cut_plan::Decision;
use listing_request::Request;
use record::Bounds;

const SPACE: u8 = b' ';

const NEWLINE: u8 = b'\n';

// No line of an answer is longer: three numbers of 10 digits, with a byte after each.
pub const LONGEST: usize = 33;

// How many windows are listed.
pub fn count(request: Request) -> u32
    ensures { result ≡ length (windows_listed request) }
{
    let decision = cut_plan::decide(request.rows, request.max, request.stride);
    match decision {
        Decision::Whole => 0,
        Decision::Emptied => 2,
        Decision::StrideRefused => 0,
        Decision::Windows(n) => n,
    }
}

// Window number i of those that are listed. Past the last, no rows.
pub fn listed(request: Request, i: u32) -> Bounds
    ensures { result ≡ get_or (windows_listed request) i (bounds 0 0) }
{
    let direction = request.direction;
    let decision = cut_plan::decide(request.rows, request.max, request.stride);
    match decision {
        Decision::Whole => Bounds { start: 0, end: 0 },
        Decision::Emptied => former(request.rows, i),
        Decision::StrideRefused => Bounds { start: 0, end: 0 },
        Decision::Windows(_) => {
            cut_plan::window(request.rows, request.max, request.stride, direction, i)
        }
    }
}

// Of an encoding of which no row is kept: first nothing, then all its rows.
fn former(rows: u32, i: u32) -> Bounds
    ensures { result ≡ get_or (bounds 0 0 ∷ bounds 0 rows ∷ []) i (bounds 0 0) }
{
    if i == 1 {
        return Bounds {
            start: 0,
            end: rows,
        };
    }
    Bounds { start: 0, end: 0 }
}

// The line about one window.
fn write_window(number: u32, window: Bounds, out: &mut [u8], at: usize) -> usize
    requires { LineRoom out.old at }
    ensures { WroteText (window_line number window) out.old at result out.new }
{
    let first = listing_text::write_field(number, SPACE, out, at);
    let second = listing_text::write_field(window.start, SPACE, out, first);
    listing_text::write_field(window.end, NEWLINE, out, second)
}

// The first line of an answer.
pub fn write_first(asked: Option<Request>, out: &mut [u8], at: usize) -> usize
    requires { LineRoom out.old at }
    ensures { WroteText (first_line asked) out.old at result out.new }
{
    match asked {
        None => listing_text::write_text(b"bad line\n", out, at),
        Some(request) => write_decision(request, out, at),
    }
}

fn write_decision(request: Request, out: &mut [u8], at: usize) -> usize
    requires { LineRoom out.old at }
    ensures { WroteText (first_line (Some request)) out.old at result out.new }
{
    let decision = cut_plan::decide(request.rows, request.max, request.stride);
    match decision {
        Decision::Whole => listing_text::write_text(b"whole\n", out, at),
        Decision::Emptied => write_count(count(request), out, at),
        Decision::StrideRefused => listing_text::write_text(b"refused 3\n", out, at),
        Decision::Windows(_) => write_count(count(request), out, at),
    }
}

// `windows`, and how many.
fn write_count(n: u32, out: &mut [u8], at: usize) -> usize
    requires { LineRoom out.old at }
    ensures { WroteText (count_line n) out.old at result out.new }
{
    let next = listing_text::write_text(b"windows ", out, at);
    listing_text::write_field(n, NEWLINE, out, next)
}

// How far a listing has come: the next window's number, and the place after the last line.
#[derive(Clone, Copy)]
pub struct Step {
    pub next: u32,
    pub at: usize,
}

// The lines about the windows from number `from` on, as many as have room.
pub fn write_windows(request: Request, from: u32, out: &mut [u8], at: usize) -> Step
    requires { at ≤ length out.old }
    ensures { Lists request from out.old at result out.new }
{
    let all = count(request);
    let mut next = from;
    let mut place = at;
    // A while: the answer tells which window comes next, which a range forgets.
    while next < all {
        if out.len() - place < LONGEST {
            break;
        }
        place = write_window(next, listed(request, next), out, place);
        next += 1;
    }
    Step { next, at: place }
}
