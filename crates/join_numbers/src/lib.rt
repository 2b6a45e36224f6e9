// The numbers of one node of a join: its counts, and P's ranges laid over S's (document 01, module 5).
#![tactic(auto)]

ghost use Rattle.join_numbers.specs.Promises.{AskNumbers, WritesNumbers};

use join_view::View;
use record::Encoding;

// How many numbers the ranges of a node take.
const RANGE_NUMBERS: usize = Encoding::SEQUENCES * Encoding::RANGE_WIDTH;

// The numbers of the node of the join of the encodings whose nodes stand at i and at k, from `at` on.
pub fn write_numbers(
    s_nodes: &[u32],
    i: usize,
    p_nodes: &[u32],
    k: usize,
    view: View,
    out_nodes: &mut [u32],
    at: usize,
)
    requires { AskNumbers s_nodes.now i p_nodes.now k view out_nodes.old at }
    ensures { WritesNumbers s_nodes.now i p_nodes.now k view
        out_nodes.old at out_nodes.new }
{
    let count = s_nodes[i];
    let windows = join_trees::window_count(s_nodes[i + 1] as usize, p_nodes[k + 1] as usize);
    out_nodes[at] = count + p_nodes[k];
    out_nodes[at + 1] = windows as u32;
    lists::copy(
        s_nodes,
        i + Encoding::RANGES,
        RANGE_NUMBERS,
        out_nodes,
        at + Encoding::RANGES,
    );
    join_ranges::lay_ranges(out_nodes, at, count, p_nodes, k, view);
}
