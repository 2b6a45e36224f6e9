// Places and characters of a text looked up one after another: from the last one on where the next is near, else from the table. Rows
// mostly come in the order of the text, but any order is right.
#![tactic(auto)]

ghost use Rattle.std.specs.Prelude.{false, ◌≡◌, ◌≤◌, length, take};
ghost use Rattle.chars_text.specs.Characters.{starts};
ghost use Rattle.chars_places.specs.Promises.{Tabled, Marked};
ghost use Rattle.chars_back.specs.Promises.{nth_start, BackTabled};

use chars_places::{Grain, Mark, PLACES};

// How far on from the last one is near: farther on the table is quicker.
const NEAR: usize = 64;

// Whether the next one is not near: before the last, or far behind it. Either answer is right for one behind it.
pub fn far(last: usize, next: usize) -> bool
    ensures { result ≡ false → last ≤ next }
{
    next < last || NEAR < next - last
}

// How many characters there are before a place.
pub fn chars_from(
    text: &[u8],
    grain: Grain,
    table: &[u32; PLACES],
    last: Mark,
    place: usize,
) -> usize
    requires { (place ≤ length text.now) × Tabled text.now table.now grain × Marked text.now last }
    ensures { result ≡ starts (take place text.now) }
{
    let mut from = last.place;
    let mut count = last.count;
    if far(from, place) {
        let k = place >> grain.shift;
        from = k * grain.block;
        count = table[k] as usize;
    }
    count + chars_count::count_starts(text, from, place)
}

// The place of the character with so many before it; the end of the text for the number of all.
pub fn place_from(
    text: &[u8],
    grain: Grain,
    table: &[u32; PLACES],
    last: Mark,
    count: usize,
) -> usize
    requires { (count ≤ starts text.now) × BackTabled text.now table.now grain × Marked text.now last }
    ensures { result ≡ nth_start count text.now }
{
    let mut from = last.place;
    let mut passed = last.count;
    if far(passed, count) {
        let k = count >> grain.shift;
        from = table[k] as usize;
        passed = k * grain.block;
    }
    chars_back::nth_start(text, from, count - passed)
}
