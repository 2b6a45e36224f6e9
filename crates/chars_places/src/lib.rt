// A table of the places of a text, made once: at the beginning of every block how many characters there are before it, so that what is
// left to count lies within one block.
#![tactic(auto)]

ghost use Rattle.std.specs.Prelude.{◌≤◌};
ghost use Rattle.chars_places.specs.Promises.{Doubling, Grained, Fillable, Tabled};
ghost use Rattle.chars_places.specs.Lengths.{text_largest};

// How many blocks a text is cut into at most: of 64 bytes for a text of a megabyte.
const BLOCKS: usize = 16_384;

// How many places there are before, between and after them.
pub const PLACES: usize = 16_385;

// The size of the blocks of a text, a power of two, so that a place's block is found by a shift.
#[derive(Clone, Copy)]
pub struct Grain {
    pub shift: usize,
    pub block: usize,
}

// A place of a text, and how many characters begin before it.
#[derive(Clone, Copy)]
pub struct Mark {
    pub place: usize,
    pub count: usize,
}

// The smallest blocks with which a text of this length has few enough: these, or twice as large, and so on.
pub fn grain_of(size: usize, smallest: Grain) -> Grain
    requires { (size ≤ text_largest) × Doubling smallest.shift smallest.block }
    ensures { Grained size result }
{
    let mut shift = smallest.shift;
    let mut block = smallest.block;
    // A while: it doubles until that is enough.
    while block * BLOCKS < size {
        block *= 2;
        shift += 1;
    }
    Grain { shift, block }
}

// The table of a text: before each block the number of characters up to it. Entries past the last block stay.
pub fn fill_places(text: &[u8], grain: Grain, table: &mut [u32; PLACES])
    requires { Fillable text.now table.old grain }
    ensures { Tabled text.now table.new grain }
{
    let block = grain.block;
    table[0] = 0;
    let mut count: usize = 0;
    for k in 0..text.len() / block {
        let at = k * block;
        count += chars_count::count_starts(text, at, at + block);
        table[k + 1] = count as u32;
    }
}
