// The C interface of the terminal profile. The function returns the number of its refusal, 0 for none, and gives its values
// through lent numbers, which a refusal leaves as they were. include/noddrefyr.h is made from this file too.
#![tactic(auto)]

ghost use Rattle.c_crossing.specs.Crossing.{Crosses};
ghost use Rattle.c_profile.specs.Answers.{profile_crossed};
ghost use Rattle.profile_trees.specs.Profile.{profile_answer};
ghost use Rattle.record.specs.Read.{read};

// Whether a batch keeps the terminal profile. Rule 1: windows have no windows; 2: both masks are 0 or 1; 3: attention is 0 only
// where the special mask is 1; 4: offset start does not pass offset end; 5: no row lies in two ranges; 6: inside each range, or
// in all rows if the node has no range, the words that are present never fall. The answer is three zeros if all are kept, else
// the first broken rule, the node in the batch and the row in the node, both counted from 0. Rule 1 is looked for in the whole
// batch, then rule 2, and so on, each in the order in which nodes and rows are stored. It is told for rule 1 of the window that
// has windows, with row 0; for rule 5 of the first row in two ranges; for rule 6 of the first row whose word is below the last
// one present before it there. Refused with 1.
#[unsafe(no_mangle)]
pub extern "C" fn noddrefyr_check_profile(nodes: &[u32], rows: &[u32], answer: &mut [u32; 3]) -> u32
    ensures { Crosses
        (profile_crossed answer.old (profile_answer (read nodes.now rows.now))) result
        answer.new }
{
    let told = match profile::check_profile(nodes, rows) {
        Err(why) => Err(why),
        Ok(None) => Ok([0, 0, 0]),
        Ok(Some(first)) => Ok([first.rule, first.node, first.row]),
    };
    c_crossing::cross(told, answer)
}
