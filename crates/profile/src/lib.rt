// The check of a batch against the terminal profile (document 02, request 08): plain records, as depot hosts accept them.
#![tactic(auto)]

ghost use Rattle.std.specs.Prelude.{◌≡◌};
ghost use Rattle.profile_trees.specs.First.{Says};
ghost use Rattle.profile_trees.specs.Profile.{profile_answer};
ghost use Rattle.record.specs.Read.{read};

use profile_trees::Break;
use record::Refusal;

// Yes, or the first broken rule with node in the batch and row in the node, going rule by rule, then depth first. Refused with 1.
pub fn check_profile(nodes: &[u32], rows: &[u32]) -> Result<Option<Break>, Refusal>
    ensures value { result ≡ profile_answer (read nodes.now rows.now) }
    ensures says { Says (read nodes.now rows.now) result }
{
    record_check::check_batch(nodes, rows)?;
    let found = profile_nodes::first_break(nodes, rows);
    if found.rule == Break::NO_RULE {
        return Ok(None);
    }
    Ok(Some(found))
}
