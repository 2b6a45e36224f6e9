// The join of two encodings, written: its node, then its windows, which are joins again (document 01, module 5).
#![tactic(auto)]

ghost use Rattle.join_write.specs.Promises.{AskJoin, WritesJoin, AskJoining, WritesJoining};
ghost use Rattle.join_write.specs.Joins.{windowed, rowed};

use join_view::View;
use record::Spot;

// The join of the encoding at s with that at p, seen through the view, from `at` on. Returns the place after it.
#[cycle(join_nodes_join_row_join_windows)]
pub fn join_nodes(
    s_nodes: &[u32],
    s_rows: &[u32],
    s: Spot,
    p_nodes: &[u32],
    p_rows: &[u32],
    p: Spot,
    view: View,
    growing: bool,
    out_nodes: &mut [u32],
    out_rows: &mut [u32],
    at: Spot,
) -> Spot
    requires { AskJoin s_nodes.now s_rows.now s p_nodes.now p_rows.now p view growing
        out_nodes.old out_rows.old at }
    ensures { WritesJoin s_nodes.now s_rows.now s p_nodes.now
        p_rows.now p view growing out_nodes.old out_rows.old at result
        out_nodes.new out_rows.new }
{
    let next = join_node::write_node(
        s_nodes, s_rows, s, p_nodes, p_rows, p, view, growing, out_nodes, out_rows, at,
    );
    join_windows(
        s_nodes, s_rows, s, p_nodes, p_rows, p, view, growing, out_nodes, out_rows, next,
    )
}

// The windows of that join, from `at` on: for each window of S, it with P, then with each window of P; after these S with each.
#[cycle(join_nodes_join_row_join_windows)]
fn join_windows(
    s_nodes: &[u32],
    s_rows: &[u32],
    s: Spot,
    p_nodes: &[u32],
    p_rows: &[u32],
    p: Spot,
    view: View,
    growing: bool,
    out_nodes: &mut [u32],
    out_rows: &mut [u32],
    at: Spot,
) -> Spot
    requires { AskJoining windowed s_nodes.now s_rows.now s p_nodes.now p_rows.now p view growing
        out_nodes.old out_rows.old at }
    ensures { WritesJoining windowed s_nodes.now s_rows.now s p_nodes.now
        p_rows.now p view growing out_nodes.old out_rows.old at result
        out_nodes.new out_rows.new }
{
    let mut window = join_walk::down(s_nodes, s);
    let mut left = join_walk::windows(s_nodes, s);
    let mut place = at;
    // A while: it counts down what is left, and the window moves on by its own width.
    while left > 0 {
        let paired = join_nodes(
            s_nodes, s_rows, window, p_nodes, p_rows, p, view, growing, out_nodes, out_rows, place,
        );
        let rowed = join_row(
            s_nodes, s_rows, window, p_nodes, p_rows, p, view, growing, out_nodes, out_rows, paired,
        );
        place = rowed;
        window = join_walk::next(s_nodes, window);
        left -= 1;
    }
    join_row(
        s_nodes, s_rows, s, p_nodes, p_rows, p, view, growing, out_nodes, out_rows, place,
    )
}

// The encoding at s with each window of that at p, from `at` on.
#[cycle(join_nodes_join_row_join_windows)]
fn join_row(
    s_nodes: &[u32],
    s_rows: &[u32],
    s: Spot,
    p_nodes: &[u32],
    p_rows: &[u32],
    p: Spot,
    view: View,
    growing: bool,
    out_nodes: &mut [u32],
    out_rows: &mut [u32],
    at: Spot,
) -> Spot
    requires { AskJoining rowed s_nodes.now s_rows.now s p_nodes.now p_rows.now p view growing
        out_nodes.old out_rows.old at }
    ensures { WritesJoining rowed s_nodes.now s_rows.now s p_nodes.now
        p_rows.now p view growing out_nodes.old out_rows.old at result
        out_nodes.new out_rows.new }
{
    let mut window = join_walk::down(p_nodes, p);
    let mut left = join_walk::windows(p_nodes, p);
    let mut place = at;
    let seen = join_view::below(view);
    // A while: it counts down what is left, and the window moves on by its own width.
    while left > 0 {
        place = join_nodes(
            s_nodes, s_rows, s, p_nodes, p_rows, window, seen, growing, out_nodes, out_rows, place,
        );
        window = join_walk::next(p_nodes, window);
        left -= 1;
    }
    place
}
