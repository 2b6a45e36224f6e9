// Numbers of 64 bits in a stored case, which has numbers of 32: each stands there as its low and its high 32 bits.
#![tactic(auto)]

ghost use Rattle.std.specs.Prelude.{◌≡◌, ◌/◌, ◌%◌, get_or};
ghost use Rattle.replay_halves.specs.Halves.{high_worth, whole_of};

// What one more in the high half is worth.
const HIGH: u64 = 0x1_0000_0000;

// The number whose halves stand at two places of a case; a half past its end is 0.
pub fn number_at(case: &[u32], low: usize, high: usize) -> u64
    ensures { result ≡ whole_of (get_or case.now low 0) (get_or case.now high 0) }
{
    whole(
        replay_cases::number_at(case, low),
        replay_cases::number_at(case, high),
    )
}

// The number of these halves.
fn whole(low: u32, high: u32) -> u64
    ensures { result ≡ whole_of low high }
{
    low as u64 + high as u64 * HIGH
}

// The low 32 bits of a number.
pub fn low(number: u64) -> u32
    ensures { result ≡ number % high_worth }
{
    (number % HIGH) as u32
}

// The high 32 bits of a number.
pub fn high(number: u64) -> u32
    ensures { result ≡ number / high_worth }
{
    (number / HIGH) as u32
}
