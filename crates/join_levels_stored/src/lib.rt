// The profile of a stored encoding, and of the fold of a batch, found in one pass over the nodes and without building
// anything.
#![tactic(auto)]

ghost use Rattle.std.specs.Prelude.{◌≡◌, ℕ, ◌≤◌};
ghost use Rattle.join_table.specs.Table.{level_count, at, sum_below};
ghost use Rattle.join_levels.specs.Levels.{Profiled};
ghost use Rattle.join_levels_stored.specs.Promises.{Standing, ProfilesAt, CountsNodes, CountsRows};
ghost use Rattle.record.specs.WellFormed.{most_rows};

use join_levels::Profile;
use join_table::LEVELS;
use record::Encoding;

// One more than the levels: below the last an empty list of windows may be open.
const OPEN: usize = LEVELS + 1;

// The profile of the encoding whose nodes begin at start, in one pass over them.
pub fn profile_at(nodes: &[u32], start: usize) -> Profile
    requires { Standing nodes.now start }
    ensures { ProfilesAt nodes.now start result }
{
    // pending[..depth] are the encodings still to come at each level that is open, the top first. Every node opens the
    // list of its windows, even if that is empty.
    let mut pending = [0u32; OPEN];
    let mut counted = [0usize; LEVELS];
    let mut rows = [0usize; LEVELS];
    let mut levels: usize = 0;
    let mut depth: usize = 1;
    let mut i = start;
    pending[0] = 1;
    // A while: each turn opens a level or leaves one, which a range doesn't.
    while depth > 0 {
        let level = depth - 1;
        let left = pending[level];
        if left == 0 {
            depth = level;
            continue;
        }
        pending[level] = left - 1;
        pending[depth] = nodes[i + 1];
        counted[level] += 1;
        rows[level] += nodes[i] as usize;
        levels = levels.max(depth);
        depth += 1;
        i += Encoding::NODE_WIDTH;
    }
    Profile {
        nodes: counted,
        rows,
        levels: levels - 1,
    }
}

// The nodes of all levels, which is how far the next encoding stands on.
pub fn nodes_in(p: Profile) -> usize
    requires { Profiled p }
    ensures { CountsNodes p result }
{
    sum(p.nodes)
}

// The rows of all levels.
pub fn rows_in(p: Profile) -> usize
    requires { Profiled p }
    ensures { CountsRows p result }
{
    sum(p.rows)
}

// All of them added up.
fn sum(a: [usize; LEVELS]) -> usize
    requires { (i : ℕ) → at a i ≤ most_rows }
    ensures { result ≡ sum_below level_count (at a) }
{
    let mut all = 0;
    for i in 0..LEVELS {
        all += a[i];
    }
    all
}
