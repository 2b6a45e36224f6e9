// The profile of plain records that depot hosts accept (document 02, request 08): where a record breaks one of its six rules. The
// rules themselves are in specs/Rules.
#![tactic(auto)]

ghost use Rattle.std.proofs.Math.Option.{none as nothing};
ghost use Rattle.std.specs.Prelude.{◌≡◌};
ghost use Rattle.profile_trees.specs.Promises.{held};

// A broken rule by its number, with the node in the batch and the row in the node, both counted from 0.
#[derive(Clone, Copy)]
pub struct Break {
    pub rule: u32,
    pub node: u32,
    pub row: u32,
}

impl Break {
    // One above the last rule: what stands for the rule where none is broken, so that every break goes before it. A number and no
    // Option, so that the pass over the rows compares once and not twice.
    pub const NO_RULE: u32 = 7;

    pub fn none() -> Self
        ensures { result ≡ held nothing }
    {
        Self {
            rule: Break::NO_RULE,
            node: 0,
            row: 0,
        }
    }
}
