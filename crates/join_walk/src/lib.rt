// The walk over the windows of a stored encoding: the first, how many, and what follows one.
#![tactic(auto)]

ghost use Rattle.std.specs.Prelude.{◌≡◌, ◌+◌, ◌≤◌, length, get_or};
ghost use Rattle.join_walk.specs.Promises.{AskDown, AskWalk, first_window, Follows};
ghost use Rattle.record.specs.Flat.{node_width};

use record::{Encoding, Spot};

// The number of windows of the encoding at s.
pub fn windows(nodes: &[u32], s: Spot) -> u32
    requires { s.node + node_width ≤ length nodes.now }
    ensures { result ≡ get_or nodes.now (s.node + 1) 0 }
{
    nodes[s.node + 1]
}

// The place of the first window of the encoding at s.
pub fn down(nodes: &[u32], s: Spot) -> Spot
    requires { AskDown nodes.now s }
    ensures { result ≡ first_window nodes.now s }
{
    Spot {
        node: s.node + Encoding::NODE_WIDTH,
        row: s.row + nodes[s.node] as usize * Encoding::ROW_WIDTH,
    }
}

// The place after the encoding at s, its windows included.
pub fn next(nodes: &[u32], s: Spot) -> Spot
    requires { AskWalk nodes.now s }
    ensures { Follows nodes.now s result }
{
    let size = record_extent::measure(nodes, s.node, 1);
    Spot {
        node: s.node + size.nodes * Encoding::NODE_WIDTH,
        row: s.row + size.rows * Encoding::ROW_WIDTH,
    }
}
