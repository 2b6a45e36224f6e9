// What each level of a join has, from what the levels of its operands have, found by a table of every level with every level.
#![tactic(auto)]

ghost use Rattle.std.specs.Prelude.{◌≡◌, ℕ, suc, ◌+◌, ◌*◌, ◌^◌, ◌≤◌, length};
ghost use Rattle.record.specs.WellFormed.{most_levels};
ghost use Rattle.join_table.specs.Table.{level_count, at, joined_level, paired, spread};
ghost use Rattle.join_table.specs.Promises.{Has, Small4};

use record::Encoding;

// The levels of an encoding, the top counted.
pub const LEVELS: usize = Encoding::MOST_LEVELS + 1;

// A table of every level with every level.
const TABLE: usize = LEVELS * LEVELS;

// How far on in the table one level down in both is.
const DIAGONAL: usize = LEVELS + 1;

// What each level down to m has: what a and b give together and what c and e give together.
pub fn levels_of(
    a: [usize; LEVELS],
    b: [usize; LEVELS],
    c: [usize; LEVELS],
    e: [usize; LEVELS],
    m: usize,
) -> [usize; LEVELS]
    requires { (m ≤ most_levels) × Small4 (at a) (at b) (at c) (at e) }
    ensures { Has result m (λ d. joined_level d (at a) (at b) + joined_level d (at c) (at e)) }
{
    descend(fill(a, b, c, e, DIAGONAL * m), m)
}

// What stands in the table at first, up to n: at LEVELS i + j, what levels i and j give together.
fn fill(
    a: [usize; LEVELS],
    b: [usize; LEVELS],
    c: [usize; LEVELS],
    e: [usize; LEVELS],
    n: usize,
) -> [usize; TABLE]
    requires { (n ≤ suc level_count * most_levels) × Small4 (at a) (at b) (at c) (at e) }
    ensures { Has result n (paired (at a) (at b) (at c) (at e)) }
{
    let mut t = [0usize; TABLE];
    for k in 0..=n {
        let i = k / LEVELS;
        let j = k % LEVELS;
        t[k] = a[i] * b[j] + c[i] * e[j];
    }
    t
}

// What stands first in the table at each level down to m.
fn descend(table: [usize; TABLE], m: usize) -> [usize; LEVELS]
    requires { (m ≤ most_levels) × ((k : ℕ) → at table k ≤ 2 ^ 29) }
    ensures { Has result m (λ d. spread d (at table) 0) }
{
    let mut t = table;
    let mut out = [0usize; LEVELS];
    for d in 0..=m {
        out[d] = t[0];
        step(&mut t, DIAGONAL * (m - d));
    }
    out
}

// One level down: the windows of the first, of both, of the second.
fn step(t: &mut [usize; TABLE], n: usize)
    requires { (n ≤ suc level_count * most_levels) × (length t.old ≡ level_count * level_count) ×
        ((k : ℕ) → k ≤ n → at t.old k ≤ 2 ^ 60) }
    ensures { (length t.new ≡ level_count * level_count) ×
        ((k : ℕ) → k + suc level_count ≤ n → at t.new k ≡ at t.old (k + 1) + at t.old
        (k + level_count) + at t.old (k + suc level_count)) }
{
    for k in 0..n.saturating_sub(LEVELS) {
        t[k] = t[k + 1] + t[k + LEVELS] + t[k + DIAGONAL];
    }
}
