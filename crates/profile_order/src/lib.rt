// The first row of a node that lies in two of its ranges, told at once where the ranges come one after another in the order of their
// ids, as they mostly do (document 02, request 08, the fifth rule).
#![tactic(auto)]

ghost use Rattle.std.specs.Prelude.{true, ◌≡◌, ℕ, ◌+◌, ◌≤◌, length, get_or};
ghost use Rattle.profile_shared.specs.Promises.{FirstShared};
ghost use Rattle.profile_trees.specs.Rules.{holders};
ghost use Rattle.record.specs.Flat.{node_width};
ghost use Rattle.record.specs.Passing.{ranges_at};

use record::Encoding;

// The first row that lies in two ranges of the node at i, or its row count.
pub fn first_in_two(nodes: &[u32], i: usize) -> u32
    requires { i + node_width ≤ length nodes.now }
    ensures { FirstShared (ranges_at nodes.now i) (get_or nodes.now i 0) result }
{
    if in_order(nodes, i) {
        return nodes[i];
    }
    profile_shared::first_shared(nodes, i)
}

// Whether each range of the node at i begins where those of lower ids have ended. Only then is something promised: no row lies in two.
fn in_order(nodes: &[u32], i: usize) -> bool
    requires { i + node_width ≤ length nodes.now }
    ensures { result ≡ true → (row : ℕ) → holders row (ranges_at nodes.now i) ≤ 1 }
{
    let mut end: u32 = 0;
    for k in 0..Encoding::SEQUENCES {
        let at = i + Encoding::RANGES + k * Encoding::RANGE_WIDTH;
        if nodes[at] == 1 {
            if nodes[at + 1] < end {
                return false;
            }
            end = end.max(nodes[at + 2]);
        }
    }
    true
}
