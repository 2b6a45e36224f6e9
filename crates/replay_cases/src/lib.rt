// A stored case: the numbers of a line, and the lists that they hold.
//
// A line is decimal numbers with single spaces between them. A list within a case is its length, then its numbers.
#![tactic(auto)]

ghost use Rattle.std.specs.Prelude.{◌≡◌, length, get_or};
ghost use Rattle.replay_cases.specs.Case.{no_list};
ghost use Rattle.replay_cases.specs.Promises.{GatheredCase, PartAt, LastAt};

use lines::Number;

const SPACE: u8 = b' ';

// Puts the numbers of a line at the start of `numbers`, and answers how many these are: none, if the line cannot be read, as one
// with more of them than there is room for. What stands past the count afterwards is left open.
pub fn read_numbers(line: &[u8], numbers: &mut [u32]) -> Option<usize>
    ensures { GatheredCase line.now (length numbers.old) result numbers.new }
{
    let mut at: usize = 0;
    let mut count: usize = 0;
    // A loop: where the next number starts, and whether there is one, is said by what was read.
    loop {
        let Number { value, next } = lines::read_number(line, at)?;
        if count == numbers.len() {
            return None;
        }
        numbers[count] = value;
        count += 1;
        if line.len() <= next {
            return Some(count);
        }
        if line[next] != SPACE {
            return None;
        }
        at = next + 1;
    }
}

// A list within a case: its numbers are `case[start..end]`, and what follows it starts at `end`.
// Where there is no list that fits, the part is empty and at the case's end: a flag and no `Option`, since what follows is looked
// for there.
#[derive(Clone, Copy)]
pub struct Part {
    pub fits: bool,
    pub start: usize,
    pub end: usize,
}

// The list whose length stands at a place.
pub fn list_at(case: &[u32], at: usize) -> Part
    ensures { PartAt case.now at result }
{
    let total = case.len();
    if at < total {
        let count = case[at] as usize;
        let start = at + 1;
        if count <= total - start {
            return Part {
                fits: true,
                start,
                end: start + count,
            };
        }
    }
    no_list(total)
}

// No list, at the end of a case of so many numbers.
pub fn no_list(total: usize) -> Part
    ensures { result ≡ no_list total }
{
    Part {
        fits: false,
        start: total,
        end: total,
    }
}

// The list whose length stands at a place, if it ends the case.
pub fn last_list(case: &[u32], at: usize) -> Part
    ensures { LastAt case.now at result }
{
    let part = list_at(case, at);
    let total = case.len();
    let end = part.end;
    if end < total {
        return no_list(total);
    }
    part
}

// The number at a place of a case, 0 past its end.
pub fn number_at(case: &[u32], at: usize) -> u32
    ensures { result ≡ get_or case.now at 0 }
{
    if at < case.len() { case[at] } else { 0 }
}
