// How an encoding is cut (document 01, module 4): whether it is, and the windows of the cut, each by its number.
// Every function answers for all numbers of 32 bits; every start and end is at most the row count, so nothing passes them.
#![tactic(auto)]

ghost use Rattle.std.specs.Prelude.{◌≡◌, length, get_or};
ghost use Rattle.cut_plan.specs.Cut.{windows_of, bounds, decision_of};

use record::Bounds;

// The side from which rows are cut off.
#[derive(Clone, Copy)]
pub enum Direction {
    Left,
    Right,
}

// What becomes of an encoding: nothing is cut; nothing is kept; the stride is refused; or this many windows, the kept
// one counted. No `Result`: most callers have refused the stride before, and all tell the four apart in one `match`.
#[derive(Clone, Copy)]
pub enum Decision {
    Whole,
    Emptied,
    StrideRefused,
    Windows(u32),
}

#[tactic(auto, unfolding(crate::specs::Cut::decision_of))]
pub fn decide(rows: u32, max: u32, stride: u32) -> Decision
    ensures { result ≡ decision_of rows max stride }
{
    if rows <= max {
        return Decision::Whole;
    }
    if max == 0 {
        return Decision::Emptied;
    }
    if max <= stride {
        return Decision::StrideRefused;
    }
    Decision::Windows(count_windows(rows, max, stride))
}

// The number of windows, the kept one counted: the same from either side. 0 where there is no such cut.
pub fn count_windows(rows: u32, max: u32, stride: u32) -> u32
    ensures { (d : Direction) → result ≡ length (windows_of rows max stride d) }
{
    if rows <= max || max <= stride {
        return 0;
    }
    (rows - max).div_ceil(max - stride) + 1
}

// Window number i of the cut, 0 the kept one. Past the last, no rows.
pub fn window(rows: u32, max: u32, stride: u32, direction: Direction, i: u32) -> Bounds
    ensures { result ≡ get_or (windows_of rows max stride direction) i (bounds 0 0) }
{
    if i < count_windows(rows, max, stride) {
        let start = i * (max - stride);
        let end = start.saturating_add(max).min(rows);
        match direction {
            Direction::Left => Bounds {
                start: rows - end,
                end: rows - start,
            },
            Direction::Right => Bounds { start, end },
        }
    } else {
        Bounds { start: 0, end: 0 }
    }
}
