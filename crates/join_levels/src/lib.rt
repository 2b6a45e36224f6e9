// The size of a join, found before anything is written and without building it, from the profiles of the two: the nodes
// and the rows at each level.
#![tactic(auto)]

ghost use Rattle.std.specs.Prelude.{◌≡◌, ◌≤◌, leb};
ghost use Rattle.join_table.specs.Table.{level_count, at, sum_below};
ghost use Rattle.join_levels.specs.Levels.{Profiled};
ghost use Rattle.join_levels.specs.Promises.{SizesJoin};

use join_table::LEVELS;
use record::Encoding;

// What an encoding has at each level, and how many levels there are below the top.
#[derive(Clone, Copy)]
pub struct Profile {
    pub nodes: [usize; LEVELS],
    pub rows: [usize; LEVELS],
    pub levels: usize,
}

// The profile of a join, from those of the two; none if the join is too large.
pub fn joined_profile(s: Profile, p: Profile) -> Option<Profile>
    requires { Profiled s × Profiled p }
    ensures { SizesJoin s p result }
{
    let m = s.levels + p.levels;
    if Encoding::MOST_LEVELS < m {
        return None;
    }
    let a = s.nodes;
    let b = p.nodes;
    let c = s.rows;
    let e = p.rows;
    let none = [0usize; LEVELS];
    let nodes = join_table::levels_of(none, none, a, b, m);
    let rows = join_table::levels_of(c, b, a, e, m);
    if !within(nodes, m + 1, Encoding::MOST_NODES) {
        return None;
    }
    if !within(rows, m + 1, Encoding::MOST_ROWS) {
        return None;
    }
    Some(Profile {
        nodes,
        rows,
        levels: m,
    })
}

// Whether the first n add up to no more than the limit.
fn within(a: [usize; LEVELS], n: usize, limit: usize) -> bool
    requires { n ≤ level_count }
    ensures { result ≡ leb (sum_below n (at a)) limit }
{
    let mut left = limit;
    for i in 0..n {
        let x = a[i];
        if left < x {
            return false;
        }
        left -= x;
    }
    true
}
