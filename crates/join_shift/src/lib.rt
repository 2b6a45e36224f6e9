// Rows copied with their offsets moved on, four rows at a time: to the numbers of four rows a block of numbers is added that
// is 0 but for the offsets. That takes no more time than a plain copy, where a second pass over the copy takes half as much
// again.
#![tactic(auto)]

ghost use Rattle.std.specs.Prelude.{◌≡◌};
ghost use Rattle.join_shift.specs.Promises.{AskShift, Shifts, shifts};

use record::{Column, Encoding};

// How many numbers four rows have, and where the offsets of the second, the third and the fourth stand.
const BLOCK: usize = 4 * Encoding::ROW_WIDTH;

const SECOND_START: usize = Encoding::ROW_WIDTH + Column::OFFSET_START;

const SECOND_END: usize = Encoding::ROW_WIDTH + Column::OFFSET_END;

const THIRD_START: usize = 2 * Encoding::ROW_WIDTH + Column::OFFSET_START;

const THIRD_END: usize = 2 * Encoding::ROW_WIDTH + Column::OFFSET_END;

const FOURTH_START: usize = 3 * Encoding::ROW_WIDTH + Column::OFFSET_START;

const FOURTH_END: usize = 3 * Encoding::ROW_WIDTH + Column::OFFSET_END;

// The rows, of which `count` stand at j, with their offsets moved on by n, from `at` on.
pub fn copy_shifted(rows: &[u32], j: usize, count: usize, n: u32, out_rows: &mut [u32], at: usize)
    requires { AskShift rows.now j count n out_rows.old at }
    ensures { Shifts rows.now j count n out_rows.old at out_rows.new }
{
    let size = count * Encoding::ROW_WIDTH;
    if n == 0 {
        lists::copy(rows, j, size, out_rows, at);
        return;
    }
    let shifts = block_of_shifts(n);
    let mut i: usize = 0;
    // A while: what is left decides, and after it the rest begins at i.
    while size - i >= BLOCK {
        join_add::add_at(rows, j + i, BLOCK, &shifts, out_rows, at + i);
        i += BLOCK;
    }
    join_add::add_few_at(rows, j + i, size - i, &shifts, out_rows, at + i);
}

// The block that moves the offsets of four rows on by n.
fn block_of_shifts(n: u32) -> [u32; BLOCK]
    ensures { result ≡ shifts n 4 }
{
    let mut shifts = [0u32; BLOCK];
    shifts[Column::OFFSET_START] = n;
    shifts[Column::OFFSET_END] = n;
    shifts[SECOND_START] = n;
    shifts[SECOND_END] = n;
    shifts[THIRD_START] = n;
    shifts[THIRD_END] = n;
    shifts[FOURTH_START] = n;
    shifts[FOURTH_END] = n;
    shifts
}
