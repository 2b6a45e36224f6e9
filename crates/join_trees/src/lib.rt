// Join (`merge_with`) and fold (`merge`): what they are, on trees (specs/), and demand 3 (proofs/Grouping).
#![tactic(auto)]

ghost use Rattle.std.specs.Prelude.{◌≡◌, ◌≤◌};
ghost use Rattle.join_trees.specs.Join.{window_count};
ghost use Rattle.record.specs.WellFormed.{most_nodes};

// The number of direct windows of a join, from those of the two: for each s one with P and one with each p, and then one
// for each p. (`length_join` of proofs/Sizes: the join has so many.)
pub fn window_count(s: usize, p: usize) -> usize
    requires { (s ≤ most_nodes) × (p ≤ most_nodes) }
    ensures { result ≡ window_count s p }
{
    s * (p + 1) + p
}
