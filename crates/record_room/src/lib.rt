// Whether a result has room, of which is known how much it takes: what refusal 2 asks before anything is written.
#![tactic(auto)]

ghost use Rattle.std.specs.Prelude.{◌≡◌};
ghost use Rattle.record_room.specs.Room.{has_room};

use record::Encoding;

// What a result takes, known before it is built: whether it is within the limits and, if so, its nodes and rows.
#[derive(Clone, Copy)]
pub struct Size {
    pub fits: bool,
    pub nodes: usize,
    pub rows: usize,
}

// Whether a result that takes this much has room in an output of so many numbers. Tested by division, so that no product
// passes 64 bits.
pub fn has_room(size: Size, nodes: usize, rows: usize) -> bool
    ensures { result ≡ has_room size nodes rows }
{
    size.fits
        && size.nodes <= nodes / Encoding::NODE_WIDTH
        && size.rows <= rows / Encoding::ROW_WIDTH
}
