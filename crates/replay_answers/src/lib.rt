// Comparing what an operation gave with the stored answers of a case.
#![tactic(auto)]

ghost use Rattle.std.specs.Prelude.{◌∷◌, ◌≡◌, length, take};
ghost use Rattle.lists.specs.Lists.{Decides};
ghost use Rattle.replay_answers.specs.Promises.{Told, comparison};

// Whether two lists are the same.
pub fn equal(a: &[u32], b: &[u32]) -> bool
    ensures { Decides result (a.now ≡ b.now) }
{
    a == b
}

// Whether numbers begin with those of a list.
pub fn begins(numbers: &[u32], list: &[u32]) -> bool
    ensures { Decides result (take (length list.now) numbers.now ≡ list.now) }
{
    numbers.starts_with(list)
}

// What a line turned out to be.
#[derive(Clone, Copy)]
pub enum Outcome {
    Skipped,
    Same,
    Differs,
    Bad,
}

// The outcome of comparing the answers.
pub fn compared(same: bool) -> Outcome
    ensures { result ≡ comparison same }
{
    if same {
        Outcome::Same
    } else {
        Outcome::Differs
    }
}

// Whether a case is, from a place on, a refusal and the numbers that were lent. One with more or fewer numbers is bad.
pub fn answered(refusal: u32, lent: &[u32], case: &[u32], at: usize) -> Outcome
    ensures { Told result (refusal ∷ lent.now) case.now at }
{
    let total = case.len();
    if total <= at {
        return Outcome::Bad;
    }
    let start = at + 1;
    if total - start != lent.len() {
        return Outcome::Bad;
    }
    if case[at] != refusal {
        return Outcome::Differs;
    }
    compared(equal(lent, &case[start..]))
}
