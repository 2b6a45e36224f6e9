// What C calls of `c_lengths`: each function promises what it promises there.
ghost use Rattle.c_crossing.specs.Options.{strategy_of};
ghost use Rattle.c_lengths.specs.Pair.{second_of, CrossesWithin};

// How many rows an encoding of first_rows rows and, if has_second, one of second_rows keep, so that they have at most max_length
// together: kept is whether the first is cut and the rows it keeps, then the same of the second, zeros if it is missing. Strategy
// 0 cuts the longest first, 1 only the first, any other only the second. Refused with 4, 5.
#[unsafe(no_mangle)]
pub extern "C" fn noddrefyr_pair_lengths(
    first_rows: u32,
    has_second: bool,
    second_rows: u32,
    max_length: u32,
    strategy: u32,
    kept: &mut [u32; 4],
) -> u32
    ensures { CrossesWithin kept.old first_rows (second_of has_second second_rows) max_length
        (strategy_of strategy) result kept.new }
{
    c_lengths::noddrefyr_pair_lengths(
        first_rows,
        has_second,
        second_rows,
        max_length,
        strategy,
        kept,
    )
}
