// Which encodings of a pair are cut, and to how many rows, before anything is cut (document 02, request 07). Every function
// answers for all numbers of 32 bits.
#![tactic(auto)]

ghost use Rattle.std.specs.Prelude.{◌≡◌};
ghost use Rattle.pair_lengths.specs.Lengths.{length_of, pair_lengths};
ghost use Rattle.pair_lengths.specs.Keeps.{KeepsLengths};

use cut_lengths::Strategy;
use record::Refusal;

// What becomes of an encoding: whether it is cut, and the rows it keeps. One that is not cut keeps all that it has.
#[derive(Clone, Copy)]
pub struct Length {
    pub cut: bool,
    pub kept: u32,
}

// The lengths of an encoding, and of the second if there is one.
#[derive(Clone, Copy)]
pub struct PairLengths {
    pub first: Length,
    pub second: Option<Length>,
}

// Which of an encoding and the second, if there is one, are cut by the strategy, and to how many rows, so that they have at most
// max_length together: from their row counts alone.
// Refuses 4 the second to be cut and missing, 5 the one to be cut too short.
#[tactic(auto, unfolding(crate::specs::Lengths::pair_lengths))]
pub fn pair_lengths(
    first: u32,
    second: Option<u32>,
    max_length: u32,
    strategy: Strategy,
) -> Result<PairLengths, Refusal>
    ensures lengths { result ≡ pair_lengths first second max_length strategy }
    ensures keeps { KeepsLengths first second max_length result }
{
    let kept = cut_lengths::kept_lengths(first, second, max_length, strategy)?;
    let rows = second.unwrap_or(0);
    Ok(PairLengths {
        first: length_of(first, kept.first),
        second: kept.second.map(|n| length_of(rows, n)),
    })
}

// An encoding that keeps so many of its rows.
fn length_of(rows: u32, kept: u32) -> Length
    ensures { result ≡ length_of rows kept }
{
    Length {
        cut: kept < rows,
        kept,
    }
}
