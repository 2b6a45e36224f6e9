// Fractions of whole numbers in lowest terms.
#![tactic(auto)]

ghost use Rattle.std.specs.Prelude.{◌≡◌};
ghost use Rattle.fractions.specs.Fractions.{gcd_of, lowest_of};

// A part of a whole.
#[derive(Clone, Copy)]
pub struct Fraction {
    pub part: u64,
    pub whole: u64,
}

// A part of a whole in lowest terms; 0 of 0 where there is no whole.
pub fn lowest(part: u64, whole: u64) -> Fraction
    ensures { result ≡ lowest_of part whole }
{
    if whole == 0 {
        return Fraction { part: 0, whole: 0 };
    }
    let divisor = gcd(part, whole);
    Fraction {
        part: part / divisor,
        whole: whole / divisor,
    }
}

// The greatest common divisor, as Euclid finds it.
fn gcd(first: u64, second: u64) -> u64
    ensures { result ≡ gcd_of first second }
{
    let mut a = first;
    let mut b = second;
    // A while: how many steps there are depends on the remainders.
    while b != 0 {
        (a, b) = (b, a % b);
    }
    a
}
