// The rows of a batch by their kinds, counted in one pass (document 02, request 03).
#![tactic(auto)]

ghost use Rattle.std.specs.Prelude.{◌≡◌, ◌*◌, ◌≤◌, length};
ghost use Rattle.record.specs.Flat.{row_width, row_at};
ghost use Rattle.record.specs.Read.{several};
ghost use Rattle.report_rows.specs.Kinds.{kinds_of};

use record::{Column, Encoding};

// How many rows have attention 0, how many of the others have a special mask that is not 0, and how many are left.
#[derive(Clone, Copy)]
pub struct Kinds {
    pub padding: usize,
    pub special: usize,
    pub rest: usize,
}

// The kinds of so many rows.
pub fn count_kinds(rows: &[u32], count: usize) -> Kinds
    requires { count * row_width ≤ length rows.now }
    ensures { result ≡ kinds_of (several row_at row_width count rows.now) }
{
    let mut padding = 0;
    let mut special = 0;
    let mut rest = 0;
    for i in 0..count {
        let at = i * Encoding::ROW_WIDTH;
        let mask = rows[at + Column::SPECIAL];
        let attention = rows[at + Column::ATTENTION];
        // Numbers to add and no branches: masks change from row to row.
        padding += (attention == 0) as usize;
        special += ((attention != 0) & (mask != 0)) as usize;
        rest += ((attention != 0) & (mask == 0)) as usize;
    }
    Kinds {
        padding,
        special,
        rest,
    }
}
