// What a line of the window lister asks (document 01).
#![tactic(auto)]

ghost use Rattle.std.specs.Prelude.{◌≡◌};
ghost use Rattle.listing_request.specs.Asked.{field_at, cut_within, asked_of};

use cut_plan::Direction;
use lines::Number;
use record::Encoding;

const SPACE: u8 = b' ';

// A cut whose windows are to be listed.
#[derive(Clone, Copy)]
pub struct Request {
    pub rows: u32,
    pub max: u32,
    pub stride: u32,
    pub direction: Direction,
}

// What a line asks: `rows max stride L` or `rows max stride R`. Nothing for any other line, which is bad.
pub fn read_request(line: &[u8]) -> Option<Request>
    ensures { result ≡ asked_of line.now }
{
    let rows = field(line, 0)?;
    let max = field(line, rows.next)?;
    let stride = field(line, max.next)?;
    let last = stride.next;
    if line.len() <= last {
        return None;
    }
    if line.len() - last > 1 {
        return None;
    }
    let letter = line[last];
    if letter == b'L' {
        return few(rows.value, max.value, stride.value, Direction::Left);
    }
    if letter == b'R' {
        return few(rows.value, max.value, stride.value, Direction::Right);
    }
    None
}

// The number at a place, and the place after the one space behind it.
fn field(line: &[u8], at: usize) -> Option<Number>
    ensures { result ≡ field_at line.now at }
{
    let number = lines::read_number(line, at)?;
    let next = number.next;
    if next < line.len() {
        if line[next] == SPACE {
            return Some(Number {
                next: next + 1,
                ..number
            });
        }
    }
    None
}

// A cut of no more rows than an encoding has.
fn few(rows: u32, max: u32, stride: u32, direction: Direction) -> Option<Request>
    ensures { result ≡ cut_within rows max stride direction }
{
    if rows as usize <= Encoding::MOST_ROWS {
        return Some(Request {
            rows,
            max,
            stride,
            direction,
        });
    }
    None
}
