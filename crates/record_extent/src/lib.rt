// How much a batch holds, windows included, and whether a result has room: what refusal 2 asks before anything is written.
#![tactic(auto)]

ghost use Rattle.std.specs.Prelude.{◌≡◌};
ghost use Rattle.record.specs.Tree.{Forest};
ghost use Rattle.record_extent.specs.Promises.{Stands, Few, with_node};
ghost use Rattle.record_extent.specs.Size.{size_of, within, roomy};

use record::Encoding;
use record_room::Size;

// How much a batch holds: its nodes, its rows and its levels, windows included.
#[derive(Clone, Copy)]
pub struct Extent {
    pub nodes: usize,
    pub rows: usize,
    pub levels: usize,
}

// What is measured so far, and after it an encoding of n rows with its windows.
fn with_node(passed: Extent, n: u32, below: Extent) -> Extent
    requires { Few passed n below }
    ensures { result ≡ with_node passed n below }
{
    Extent {
        nodes: passed.nodes + (below.nodes + 1),
        rows: passed.rows + (n as usize + below.rows),
        levels: passed.levels.max(below.levels + 1),
    }
}

// How much the `tops` encodings from node place i on hold. Their windows are measured by the same function, one level
// down; encodings side by side by its loop.
pub fn measure(nodes: &[u32], i: usize, tops: u32) -> Extent
    requires { (f : Forest) × Stands nodes.now i tops f }
    ensures { (f : Forest) → Stands nodes.now i tops f → result ≡ size_of f }
{
    let mut passed = Extent {
        nodes: 0,
        rows: 0,
        levels: 0,
    };
    for _ in 0..tops {
        let at = i + passed.nodes * Encoding::NODE_WIDTH;
        let below = measure(nodes, at + Encoding::NODE_WIDTH, nodes[at + 1]);
        passed = with_node(passed, nodes[at], below);
    }
    passed
}

// Whether a result that holds this much is within the limits.
fn within(size: Extent) -> bool
    ensures { result ≡ within size }
{
    size.nodes <= Encoding::MOST_NODES
        && size.rows <= Encoding::MOST_ROWS
        && size.levels <= Encoding::MOST_LEVELS + 1
}

// Whether a result that holds this much has room in the limits and in an output of so many numbers.
pub fn has_room(size: Extent, nodes: usize, rows: usize) -> bool
    ensures { result ≡ roomy size nodes rows }
{
    let taken = Size {
        fits: within(size),
        nodes: size.nodes,
        rows: size.rows,
    };
    record_room::has_room(taken, nodes, rows)
}
