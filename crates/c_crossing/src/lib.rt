// How answers cross the C interface: the number of a refusal, 0 for none, as the result, and values through lent numbers, which
// a refusal leaves as they were, save those of a part at fault. The crates c_make to c_process have the functions that C calls; this
// one has what they share.
#![tactic(auto)]

ghost use Rattle.std.specs.Prelude.{◌≡◌};
ghost use Rattle.c_crossing.specs.Crossing.{Crosses, crossed_of};
ghost use Rattle.c_crossing.specs.Options.{direction_of, strategy_of};
ghost use Rattle.record.specs.Outcome.{refusal_of, counts_or, fault_after};
ghost use Rattle.record.specs.Refusals.{number_of, fault_or};

use cut_lengths::Strategy;
use cut_plan::Direction;
use record::{Refusal, Written};

// The number of an answer's refusal, and its nodes and rows through `written`. It is a function of its own so that the `match`
// stands where no output is lent.
pub fn told(answer: Result<Written, Refusal>, written: &mut [usize; 2]) -> u32
    ensures refusal { result ≡ refusal_of answer }
    ensures counts { written.new ≡ counts_or written.old answer }
{
    match answer {
        Err(why) => why.number(),
        Ok(Written { nodes, rows }) => {
            *written = [nodes, rows];
            0
        }
    }
}

// The number of a refusal, and the part at fault through `fault`, its number and its place, which any other refusal leaves.
pub fn fault_told(why: Refusal, fault: &mut [usize; 2]) -> u32
    ensures refusal { result ≡ number_of why }
    ensures part { fault.new ≡ fault_or fault.old why }
{
    let Some(found) = why.fault() else {
        return why.number();
    };
    *fault = [found.part, found.place];
    why.number()
}

// Both of an answer that may be refused for a part of a template.
pub fn told_with_fault(
    answer: Result<Written, Refusal>,
    written: &mut [usize; 2],
    fault: &mut [usize; 2],
) -> u32
    ensures refusal { result ≡ refusal_of answer }
    ensures counts { written.new ≡ counts_or written.old answer }
    ensures part { fault.new ≡ fault_after fault.old answer }
{
    if let Err(why) = answer {
        return fault_told(why, fault);
    }
    told(answer, written)
}

// The number of an answer's refusal, and its numbers through `out`, which a refusal leaves.
pub fn cross<const N: usize>(answer: Result<[u32; N], Refusal>, out: &mut [u32; N]) -> u32
    ensures { Crosses (crossed_of out.old answer.entry) result out.new }
{
    match answer {
        Err(k) => k.number(),
        Ok(numbers) => {
            *out = numbers;
            0
        }
    }
}

// Which end of the rows a cut or padding is at.
pub fn direction_of(left: bool) -> Direction
    ensures { result ≡ direction_of left }
{
    if left {
        Direction::Left
    } else {
        Direction::Right
    }
}

// Which of a pair is cut.
pub fn strategy_of(strategy: u32) -> Strategy
    ensures { result ≡ strategy_of strategy }
{
    match strategy {
        0 => Strategy::LongestFirst,
        1 => Strategy::OnlyFirst,
        _ => Strategy::OnlySecond,
    }
}
