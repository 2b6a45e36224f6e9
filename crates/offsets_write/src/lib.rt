// The offsets of rows converted in place, by a table of their text (document 02, request 01).
#![tactic(auto)]

ghost use mathlib.Core.List.{◌++◌, map, flat_map};
ghost use Rattle.std.specs.Prelude.{◌≡◌, ◌+◌, ◌-◌, ◌*◌, ◌≤◌, drop};
ghost use Rattle.record.specs.Flat.{row_width, row_numbers, row_at};
ghost use Rattle.record.specs.Read.{several};
ghost use Rattle.chars_places.specs.Lengths.{text_largest};
ghost use Rattle.chars_stretch.specs.Promises.{Holds};
ghost use Rattle.offsets_trees.specs.Offsets.{with_offsets, convert_by};
ghost use Rattle.offsets_write.specs.Promises.{Accepted, StretchedBy, RowAccepted, RowsAccepted, row_converted};

use chars_places::{Grain, PLACES};
use chars_stretch::Stretch;
use offsets_trees::Way;
use record::{Column, Encoding};

// How many offsets a row has, one beside the other.
const OFFSETS: usize = 2;

// Another stretch, from an offset on.
fn stretch_from(
    way: Way,
    text: &[u8],
    grain: Grain,
    table: &[u32; PLACES],
    last: Stretch,
    offset: usize,
) -> Stretch
    requires { Accepted text.now table.now grain way offset × StretchedBy way text.now last }
    ensures { StretchedBy way text.now result × Holds result offset }
{
    match way {
        Way::ToCharacters => chars_stretch::from_place(text, grain, table, last, offset),
        Way::ToBytes => chars_stretch::from_character(text, grain, table, last, offset),
    }
}

// The stretch that has an offset: the last one if it does.
fn stretch_with(
    way: Way,
    text: &[u8],
    grain: Grain,
    table: &[u32; PLACES],
    last: Stretch,
    offset: usize,
) -> Stretch
    requires { Accepted text.now table.now grain way offset × StretchedBy way text.now last }
    ensures { StretchedBy way text.now result × Holds result offset }
{
    if last.from <= offset && offset <= last.to {
        return last;
    }
    stretch_from(way, text, grain, table, last, offset)
}

// What an offset of a stretch becomes.
fn value(stretch: Stretch, offset: usize) -> u32
    requires { Holds stretch offset × (stretch.base + (offset - stretch.from) ≤ text_largest) }
    ensures { result ≡ stretch.base + (offset - stretch.from) }
{
    (stretch.base + (offset - stretch.from)) as u32
}

// The row at a place converted, its start and then its end; with the stretch that has its end, from which the next row goes on.
fn convert_row(
    way: Way,
    text: &[u8],
    grain: Grain,
    table: &[u32; PLACES],
    last: Stretch,
    rows: &mut [u32],
    at: usize,
) -> Stretch
    requires { RowAccepted text.now table.now grain way rows.old at × StretchedBy way text.now last }
    ensures rows { rows.new ≡ row_converted (convert_by way text.now) rows.old at }
    ensures stretch { StretchedBy way text.now result }
{
    let mut stretch = last;
    for column in 0..OFFSETS {
        let place = at + Column::OFFSET_START + column;
        let offset = rows[place] as usize;
        stretch = stretch_with(way, text, grain, table, stretch, offset);
        rows[place] = value(stretch, offset);
    }
    stretch
}

// So many rows converted. What follows them stays.
pub fn convert_rows(
    way: Way,
    text: &[u8],
    grain: Grain,
    table: &[u32; PLACES],
    rows: &mut [u32],
    count: usize,
)
    requires { RowsAccepted text.now table.now grain way rows.old count }
    ensures { rows.new ≡
        flat_map row_numbers (map (with_offsets (convert_by way text.now)) (several row_at row_width count rows.old))
        ++ drop (count * row_width) rows.old }
{
    let mut last = Stretch {
        from: 0,
        to: 0,
        base: 0,
    };
    for i in 0..count {
        last = convert_row(way, text, grain, table, last, rows, i * Encoding::ROW_WIDTH);
    }
}
