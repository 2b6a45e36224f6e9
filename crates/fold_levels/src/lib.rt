// The profile of the fold of a batch, found encoding by encoding and without building anything.
#![tactic(auto)]

ghost use Rattle.fold_levels.specs.Promises.{Held, MeasuresFold};
ghost use Rattle.join_levels.specs.Levels.{ProfileOf};
ghost use Rattle.record.specs.Tree.{empty};

use join_levels::Profile;
use join_table::LEVELS;
use record::Encoding;

// The profile of the fold of a batch, encoding by encoding; none if it is too large, at the first step that is.
pub fn folded_profile(nodes: &[u32]) -> Option<Profile>
    requires { Held nodes.now }
    ensures { MeasuresFold nodes.now result }
{
    let mut so_far = empty_profile();
    let mut i = 0;
    // A while: the next encoding is as many nodes on as this one has, and a range's step is 1.
    while i < nodes.len() {
        let p = join_levels_stored::profile_at(nodes, i);
        so_far = join_levels::joined_profile(so_far, p)?;
        i += join_levels_stored::nodes_in(p) * Encoding::NODE_WIDTH;
    }
    Some(so_far)
}

// The profile of the empty encoding, from which a fold starts.
pub fn empty_profile() -> Profile
    ensures { ProfileOf empty result }
{
    let mut nodes = [0usize; LEVELS];
    nodes[0] = 1;
    let rows = [0usize; LEVELS];
    Profile {
        nodes,
        rows,
        levels: 0,
    }
}
