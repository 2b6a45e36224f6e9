// The place of a character by its number, and a table of such places, for the way back.
#![tactic(auto)]

ghost use Rattle.std.specs.Prelude.{◌≡◌, ◌+◌, ◌≤◌, length, drop};
ghost use Rattle.chars_back.specs.Promises.{nth_start, BackFillable, BackTabled};

use chars_places::{Grain, PLACES};

// From how many characters on bytes are passed together.
const MANY: usize = 8;

// The place of the character before which so many begin from a place on; the end of the text if there is none. A tail counts 0 rather
// than being passed by a branch of its own, which the processor would guess wrongly every few bytes.
fn step_on(text: &[u8], from: usize, count: usize) -> usize
    requires { from ≤ length text.now }
    ensures { result ≡ from + nth_start count (drop from text.now) }
{
    let mut left = count;
    for at in from..text.len() {
        let here = chars_count::start(text[at]) as usize;
        if left < here {
            return at;
        }
        left -= here;
    }
    text.len()
}

// The same, for many characters: the place is at least as many bytes on, and what then is left is looked for in the same way.
pub fn nth_start(text: &[u8], from: usize, count: usize) -> usize
    requires { from ≤ length text.now }
    ensures { result ≡ from + nth_start count (drop from text.now) }
{
    let mut at = from;
    let mut left = count;
    // A while: a step goes over as many bytes as characters are left.
    while MANY <= left {
        if text.len() - at < left {
            return text.len();
        }
        let end = at + left;
        left -= chars_count::count_starts(text, at, end);
        at = end;
    }
    step_on(text, at, left)
}

// The table of a text of so many characters for the way back: of as many characters as a block has bytes the place of the first, and so
// on. Entries past the last stay.
pub fn fill_back(text: &[u8], grain: Grain, total: usize, table: &mut [u32; PLACES])
    requires { BackFillable text.now table.old grain total }
    ensures { BackTabled text.now table.new grain }
{
    let block = grain.block;
    table[0] = 0;
    let mut at = 0;
    for k in 0..total / block {
        at = nth_start(text, at, block);
        table[k + 1] = at as u32;
    }
}
