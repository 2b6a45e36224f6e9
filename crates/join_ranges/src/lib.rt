// The ranges of one node of a join: those of the second operand, seen and shifted, over those of the first.
#![tactic(auto)]

ghost use Rattle.std.specs.Prelude.{◌+◌, ◌≤◌, ◌<◌, length, set};
ghost use Rattle.join_ranges.specs.Promises.{AskRange, LaysRange, whole_laid, MakesRanges, AskRanges, LaysRanges};
ghost use Rattle.record.specs.Tree.{shifted, sequences};
ghost use Rattle.join_view.specs.View.{ViewFine};
ghost use Rattle.record.specs.Flat.{node_width};
ghost use Rattle.record.specs.WellFormed.{most_rows};
ghost use Rattle.record_write.specs.Writing.{present_range};

use join_view::View;
use record::Encoding;

// The ranges of P's node at i, seen through the view and shifted, over those of the node at `at`.
pub fn lay_ranges(nodes: &mut [u32], at: usize, shift: u32, p_nodes: &[u32], i: usize, view: View)
    requires { AskRanges nodes.old at shift p_nodes.now i view }
    ensures { LaysRanges view nodes.old at shift p_nodes.now i nodes.new }
{
    lay_present(nodes, at, shift, p_nodes, i);
    view_range(nodes, at, shift, p_nodes[i], view);
}

// The ranges of the node at i, shifted, over those of the node at `at`, where they are present.
pub fn lay_present(nodes: &mut [u32], at: usize, shift: u32, p_nodes: &[u32], i: usize)
    requires { AskRanges nodes.old at shift p_nodes.now i View.Plain }
    ensures { LaysRanges View.Plain nodes.old at shift p_nodes.now i nodes.new }
{
    for k in 0..Encoding::SEQUENCES {
        let of_k = Encoding::RANGES + k * Encoding::RANGE_WIDTH;
        lay_range(nodes, at + of_k, shift, p_nodes, i + of_k);
    }
}

// P's range at `from`, shifted, over S's at `to`, if it is present.
pub fn lay_range(nodes: &mut [u32], to: usize, shift: u32, p_nodes: &[u32], from: usize)
    requires { AskRange nodes.old to shift p_nodes.now from }
    ensures { LaysRange nodes.old to shift p_nodes.now from nodes.new }
{
    if p_nodes[from] == 0 {
        return;
    }
    let start = p_nodes[from + 1] + shift;
    let end = p_nodes[from + 2] + shift;
    record_write::write_range(nodes, to, start, end);
}

// The range that the view sets, if it sets one.
pub fn view_range(nodes: &mut [u32], at: usize, shift: u32, count: u32, view: View)
    requires { (ViewFine view) × (at + node_width ≤ length nodes.old) × (shift + count ≤ most_rows) }
    ensures { MakesRanges (whole_laid view shift count) nodes.old at nodes.new }
{
    match view {
        View::Plain => {}
        View::Window(k) => write_whole(nodes, at, k, shift, count),
        View::Piece(k, _) => write_whole(nodes, at, k, shift, count),
    }
}

// The range of sequence k of the node at `at`: all of `count` rows, after the first `shift`.
pub fn write_whole(nodes: &mut [u32], at: usize, k: usize, shift: u32, count: u32)
    requires { (k < sequences) × (at + node_width ≤ length nodes.old) × (shift + count ≤ most_rows) }
    ensures { MakesRanges (λ q. set q k (shifted shift (present_range 0 count))) nodes.old at
        nodes.new }
{
    let place = at + Encoding::RANGES + k * Encoding::RANGE_WIDTH;
    record_write::write_range(nodes, place, shift, count + shift);
}
