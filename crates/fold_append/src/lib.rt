// A fold without windows: the empty encoding that it goes on from, and an encoding joined in place (document 01, `merge`).
#![tactic(auto)]

ghost use Rattle.std.specs.Prelude.{[], ◌∷◌, ◌≡◌, ◌≤◌, length};
ghost use Rattle.std.proofs.lemmas.List.Edits.{sets};
ghost use Rattle.fold_append.specs.Promises.{AskAppend, Appends};
ghost use Rattle.record.specs.Flat.{node_width, flat_nodes};
ghost use Rattle.record.specs.Tree.{forest, empty};

use join_view::View;
use record::{Encoding, Spot};

// The empty encoding, from which a fold goes on, at the front of the output. It has no rows.
pub fn start(out_nodes: &mut [u32])
    requires { node_width ≤ length out_nodes.old }
    ensures { out_nodes.new ≡ sets out_nodes.old 0 (flat_nodes (forest (empty ∷ []))) }
{
    let empty = Encoding::empty();
    lists::copy(&empty, 0, Encoding::NODE_WIDTH, out_nodes, 0);
}

// The encoding at p, seen through the view, joined with the one that stands at the front of the output, in its place.
// Neither has windows: rows are put after rows, and nothing is copied that stays.
pub fn append_node(
    p_nodes: &[u32],
    p_rows: &[u32],
    p: Spot,
    view: View,
    growing: bool,
    out_nodes: &mut [u32],
    out_rows: &mut [u32],
)
    requires { AskAppend p_nodes.now p_rows.now p view growing out_nodes.old out_rows.old }
    ensures { Appends p_nodes.now p_rows.now p view growing
        out_nodes.old out_rows.old out_nodes.new out_rows.new }
{
    let k = p.node;
    let shift = out_nodes[0];
    let added = p_nodes[k];
    let count = shift as usize;
    let p_count = added as usize;
    let size = count * Encoding::ROW_WIDTH;
    let base = join_rows::base_of(out_rows, 0, count, growing);
    out_nodes[0] = shift + added;
    join_ranges::lay_ranges(out_nodes, 0, shift, p_nodes, k, view);
    join_rows::copy_moved(p_rows, p.row, p_count, base, view, out_rows, size);
}
