// The C interface of the lengths of a pair. It returns the number of its refusal, 0 for none, and gives its values through lent
// numbers, which a refusal leaves as they were. include/noddrefyr.h is made from this file too.
#![tactic(auto)]

ghost use Rattle.c_crossing.specs.Options.{strategy_of};
ghost use Rattle.c_lengths.specs.Pair.{second_of, CrossesWithin};

use pair_lengths::PairLengths;

// How many rows an encoding of first_rows rows and, if has_second, one of second_rows keep, so that they have at most max_length
// together: kept is whether the first is cut and the rows it keeps, then the same of the second, zeros if it is missing. Strategy
// 0 cuts the longest first, 1 only the first, any other only the second. Refused with 4, 5.
#[unsafe(no_mangle)]
pub extern "C" fn noddrefyr_pair_lengths(
    first_rows: u32,
    has_second: bool,
    second_rows: u32,
    max_length: u32,
    strategy: u32,
    kept: &mut [u32; 4],
) -> u32
    ensures { CrossesWithin kept.old first_rows (second_of has_second second_rows) max_length
        (strategy_of strategy) result kept.new }
{
    let second = has_second.then_some(second_rows);
    let chosen = c_crossing::strategy_of(strategy);
    let told = match pair_lengths::pair_lengths(first_rows, second, max_length, chosen) {
        Err(k) => Err(k),
        Ok(
            PairLengths {
                first,
                second: None,
            },
        ) => { Ok([first.cut as u32, first.kept, 0, 0]) }
        Ok(
            PairLengths {
                first,
                second: Some(other),
            },
        ) => { Ok([first.cut as u32, first.kept, other.cut as u32, other.kept]) }
    };
    c_crossing::cross(told, kept)
}
