// Offsets looked up a stretch at a time: where every byte is a character's first, as in most of a log, places and characters go on
// together, so that only the first offset of a stretch is counted.
#![tactic(auto)]

ghost use Rattle.std.specs.Prelude.{◌≤◌, length};
ghost use Rattle.chars_text.specs.Characters.{starts};
ghost use Rattle.chars_places.specs.Promises.{Tabled};
ghost use Rattle.chars_back.specs.Promises.{BackTabled};
ghost use Rattle.chars_stretch.specs.Promises.{StartsUpTo, CharsStretched, PlacesStretched, Holds};

use chars_places::{Grain, Mark, PLACES};

// Offsets next to each other, and what the first of them becomes. Each becomes as much more as it lies behind the first.
#[derive(Clone, Copy)]
pub struct Stretch {
    pub from: usize,
    pub to: usize,
    pub base: usize,
}

// How many bytes are looked at together.
const PART: usize = 16;

// How many times at most.
const PARTS: usize = 32;

// Up to where every byte is a character's first, from a place on and as far as is looked.
fn starts_up_to(text: &[u8], from: usize) -> usize
    requires { from ≤ length text.now }
    ensures { StartsUpTo text.now from result }
{
    let mut to = from;
    for _ in 0..PARTS {
        if text.len() - to < PART {
            return to;
        }
        let end = to + PART;
        if (chars_count::count_block(&text[to..end]) as usize) < PART {
            return to;
        }
        to = end;
    }
    to
}

// The stretch of places from one on, found from the end of the last stretch or by the table. Each place becomes its number of characters.
// Behind a jump offsets likely come in no order, and the stretch has only the one.
pub fn from_place(
    text: &[u8],
    grain: Grain,
    table: &[u32; PLACES],
    last: Stretch,
    place: usize,
) -> Stretch
    requires { (place ≤ length text.now) × Tabled text.now table.now grain × CharsStretched text.now last }
    ensures { CharsStretched text.now result × Holds result place }
{
    let last_count = last.base + (last.to - last.from);
    let mark = Mark {
        place: last.to,
        count: last_count,
    };
    let base = chars_near::chars_from(text, grain, table, mark, place);
    if chars_near::far(last.to, place) {
        return Stretch {
            from: place,
            to: place,
            base,
        };
    }
    let to = starts_up_to(text, place);
    Stretch {
        from: place,
        to,
        base,
    }
}

// The stretch of characters from one on, each of which becomes its place. The one after the last byte looked at is left out: tails may come
// before it.
pub fn from_character(
    text: &[u8],
    grain: Grain,
    table: &[u32; PLACES],
    last: Stretch,
    count: usize,
) -> Stretch
    requires { (count ≤ starts text.now) × BackTabled text.now table.now grain × PlacesStretched text.now last }
    ensures { PlacesStretched text.now result × Holds result count }
{
    let last_place = last.base + (last.to - last.from);
    let mark = Mark {
        place: last_place,
        count: last.to,
    };
    let base = chars_near::place_from(text, grain, table, mark, count);
    if chars_near::far(last_place, base) {
        return Stretch {
            from: count,
            to: count,
            base,
        };
    }
    let end = starts_up_to(text, base);
    if base < end {
        let to = count + (end - base - 1);
        return Stretch {
            from: count,
            to,
            base,
        };
    }
    Stretch {
        from: count,
        to: count,
        base,
    }
}
