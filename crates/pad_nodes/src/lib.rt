// The node of a padded encoding, written: its row count, its window count and its ranges (document 01, "Pad").
#![tactic(auto)]

ghost use mathlib.Core.List.{flat_map, map};
ghost use Rattle.std.specs.Prelude.{◌≡◌, ◌+◌, drop};
ghost use Rattle.std.proofs.lemmas.List.Edits.{sets};
ghost use Rattle.pad_nodes.specs.Promises.{padded_node, AskShiftRange, AskShiftNode};
ghost use Rattle.pad_nodes.specs.Shifted.{shifted_present};
ghost use Rattle.record.specs.Flat.{range_numbers, range_at};
ghost use Rattle.record.specs.Passing.{ranges_at};

use cut_plan::Direction;
use record::Encoding;

// The node at i, into the same place of the output: so many rows now, so many of them new.
pub fn write_node(
    nodes: &[u32],
    i: usize,
    count: u32,
    new: u32,
    direction: Direction,
    out: &mut [u32],
)
    requires { AskShiftNode nodes.now i new out.old }
    ensures { out.new ≡ sets out.old i (padded_node nodes.now i count new direction) }
{
    out[i] = count;
    out[i + 1] = nodes[i + 1];
    match direction {
        Direction::Left => shift_ranges(nodes, i, new, out),
        Direction::Right => {
            let at = i + Encoding::RANGES;
            lists::copy(nodes, at, Encoding::NODE_WIDTH - Encoding::RANGES, out, at)
        }
    }
}

// The ranges of the node at i, shifted, into the same place of the output.
fn shift_ranges(nodes: &[u32], i: usize, shift: u32, out: &mut [u32])
    requires { AskShiftNode nodes.now i shift out.old }
    ensures { out.new ≡ sets out.old (i + 2) (flat_map range_numbers
        (map (shifted_present shift) (ranges_at nodes.now i))) }
{
    for k in 0..Encoding::SEQUENCES {
        let at = i + Encoding::RANGES + k * Encoding::RANGE_WIDTH;
        shift_range(nodes, at, shift, out);
    }
}

// The range at a place, shifted, into the same place of the output. An absent one stays absent.
fn shift_range(nodes: &[u32], at: usize, shift: u32, out: &mut [u32])
    requires { AskShiftRange nodes.now at shift out.old }
    ensures { out.new ≡ sets out.old at (range_numbers
        (shifted_present shift (range_at (drop at nodes.now)))) }
{
    if nodes[at] == 0 {
        lists::copy(nodes, at, Encoding::RANGE_WIDTH, out, at);
        return;
    }
    record_write::write_range(out, at, nodes[at + 1] + shift, nodes[at + 2] + shift);
}
