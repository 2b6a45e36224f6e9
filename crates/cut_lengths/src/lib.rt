// How many rows each of a pair keeps (document 01, "Truncate pair"). Every function answers for all numbers of 32 bits.
#![tactic(auto)]

ghost use Rattle.std.specs.Prelude.{◌≡◌};
ghost use Rattle.cut_lengths.specs.Lengths.{kept_lengths, kept_alone, kept_both, shorter_share, longer_share};

use record::Refusal;

// Which of a pair is cut: the longer one first, or always the first, or always the second.
#[derive(Clone, Copy)]
pub enum Strategy {
    LongestFirst,
    OnlyFirst,
    OnlySecond,
}

// How many rows are kept of the first, and of the second if there is one.
#[derive(Clone, Copy)]
pub struct Kept {
    pub first: u32,
    pub second: Option<u32>,
}

// How many rows each of a pair keeps, so that they have at most max_length together. An encoding that is not cut keeps
// the rows it has. Refuses 4 where the second is to be cut and missing, 5 where the one to be cut is too short.
pub fn kept_lengths(
    first: u32,
    second: Option<u32>,
    max_length: u32,
    strategy: Strategy,
) -> Result<Kept, Refusal>
    ensures { result ≡ kept_lengths first second max_length strategy }
{
    match second {
        None => kept_alone(first, max_length, strategy),
        Some(rows) => kept_both(first, rows, max_length, strategy),
    }
}

#[tactic(auto, unfolding(crate::specs::Lengths::kept_alone))]
fn kept_alone(first: u32, most: u32, strategy: Strategy) -> Result<Kept, Refusal>
    ensures { result ≡ kept_alone first most strategy }
{
    let whole = Kept {
        first,
        second: None,
    };
    if most == 0 {
        return Ok(Kept { first: 0, ..whole });
    }
    if first <= most {
        return Ok(whole);
    }
    match strategy {
        Strategy::LongestFirst | Strategy::OnlyFirst => Ok(Kept {
            first: most,
            ..whole
        }),
        Strategy::OnlySecond => Err(Refusal::SecondMissing),
    }
}

#[tactic(auto, unfolding(crate::specs::Lengths::kept_both))]
fn kept_both(first: u32, second: u32, most: u32, strategy: Strategy) -> Result<Kept, Refusal>
    ensures { result ≡ kept_both first second most strategy }
{
    let whole = Kept {
        first,
        second: Some(second),
    };
    if most == 0 {
        return Ok(Kept {
            first: 0,
            second: Some(0),
        });
    }
    if first as u64 + second as u64 <= most as u64 {
        return Ok(whole);
    }
    match strategy {
        Strategy::LongestFirst if second < first => Ok(Kept {
            first: longer_share(second, most),
            second: Some(shorter_share(second, most)),
        }),
        Strategy::LongestFirst => Ok(Kept {
            first: shorter_share(first, most),
            second: Some(longer_share(first, most)),
        }),
        Strategy::OnlyFirst if second < most => Ok(Kept {
            first: most - second,
            ..whole
        }),
        Strategy::OnlySecond if first < most => Ok(Kept {
            second: Some(most - first),
            ..whole
        }),
        _ => Err(Refusal::TooShort),
    }
}

// What the shorter of two, with so many rows, keeps of most: all its rows, or half.
fn shorter_share(rows: u32, most: u32) -> u32
    ensures { result ≡ shorter_share rows most }
{
    rows.min(most / 2)
}

// What the longer one keeps beside it: the rest.
fn longer_share(rows: u32, most: u32) -> u32
    ensures { result ≡ longer_share rows most }
{
    most - shorter_share(rows, most)
}
