// The span of some rows, in one pass over them (document 02, request 04).
#![tactic(auto)]

ghost use Rattle.std.proofs.Math.Option.{Option};
ghost use Rattle.std.specs.Prelude.{◌≡◌, ◌+◌, ◌*◌, ◌≤◌, length, drop};
ghost use Rattle.lookup_spans.specs.Seen.{seen_of, widest_of};
ghost use Rattle.lookup_spans.specs.Spans.{Span, joint, row_span, span_of};
ghost use Rattle.record.specs.Flat.{row_width, row_at};
ghost use Rattle.record.specs.Read.{several};

use record::{Column, Encoding};

// A span: its start and its end.
#[derive(Clone, Copy)]
pub struct Seen {
    pub start: u32,
    pub end: u32,
}

// What the rows passed have: whether any of them counts, and the least start and the greatest end of those that do, the largest
// number and 0 while there is none. A flag and no option: that would be taken apart and put together for each row, which took a
// fifth to two fifths longer.
#[derive(Clone, Copy)]
pub struct Widest {
    pub found: bool,
    pub start: u32,
    pub end: u32,
}

// The span of the count rows from row number first on.
pub fn span_of(rows: &[u32], first: usize, count: usize) -> Option<Seen>
    requires { (first + count) * row_width ≤ length rows.now }
    ensures { result ≡ seen_of (span_of (several row_at row_width count (drop (first * row_width) rows.now))) }
{
    let mut seen = Widest {
        found: false,
        start: u32::MAX,
        end: 0,
    };
    for i in 0..count {
        let at = (first + i) * Encoding::ROW_WIDTH;
        seen = widened(
            seen,
            rows[at + Column::SPECIAL],
            rows[at + Column::OFFSET_START],
            rows[at + Column::OFFSET_END],
        );
    }
    seen.found.then_some(Seen {
        start: seen.start,
        end: seen.end,
    })
}

// What they have with one row more, by its special mask and its offsets.
fn widened(seen: Widest, mask: u32, start: u32, end: u32) -> Widest
    ensures { (s : Option Span) → seen ≡ widest_of s → result ≡ widest_of (joint s (row_span mask start end)) }
{
    if mask != 0 {
        return seen;
    }
    Widest {
        found: true,
        start: seen.start.min(start),
        end: seen.end.max(end),
    }
}
