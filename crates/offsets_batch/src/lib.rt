// A batch with its offsets converted, written to an output that has room for it (document 02, request 01).
#![tactic(auto)]

ghost use Rattle.std.specs.Prelude.{◌≡◌};
ghost use Rattle.std.proofs.lemmas.List.Edits.{sets};
ghost use Rattle.chars_places.specs.Promises.{Doubling};
ghost use Rattle.chars_back.specs.Promises.{BackFillable};
ghost use Rattle.offsets_write.specs.Promises.{TabledBy};
ghost use Rattle.offsets_batch.specs.Promises.{Copied, Convertible, converted_numbers, turned_numbers};

use chars_places::{Grain, PLACES};
use offsets_trees::Way;
use record::Encoding;

// From how many bytes on a text is long.
const LONG: usize = 262_144;

// The nodes as they are, and the rows with other offsets. A table is made only where it is needed: in a text of as many characters as
// bytes every offset stays.
pub fn write_converted(
    way: Way,
    nodes: &[u32],
    rows: &[u32],
    text: &[u8],
    total: usize,
    out_nodes: &mut [u32],
    out_rows: &mut [u32],
)
    requires { Convertible way nodes.now rows.now text.now total out_nodes.old out_rows.old }
    ensures nodes { out_nodes.new ≡ sets out_nodes.old 0 nodes.now }
    ensures rows { out_rows.new ≡
        sets out_rows.old 0 (converted_numbers way text.now rows.now) }
{
    lists::copy(nodes, 0, nodes.len(), out_nodes, 0);
    lists::copy(rows, 0, rows.len(), out_rows, 0);
    if total == text.len() {
        return;
    }
    convert_copied(way, text, total, out_rows, rows.len() / Encoding::ROW_WIDTH);
}

// So many rows of the output converted.
fn convert_copied(way: Way, text: &[u8], total: usize, out_rows: &mut [u32], count: usize)
    requires { Copied way text.now total out_rows.old count }
    ensures { out_rows.new ≡ turned_numbers way text.now out_rows.old count }
{
    let grain = chars_places::grain_of(text.len(), smallest(way, text.len()));
    let mut table = [0u32; PLACES];
    fill(way, text, grain, total, &mut table);
    offsets_write::convert_rows(way, text, grain, &table, out_rows, count);
}

// The smallest blocks of a way's table for a text of this length. Towards bytes an entry takes longer to find, so a long text has fewer.
fn smallest(way: Way, size: usize) -> Grain
    ensures { Doubling result.shift result.block }
{
    if let Way::ToBytes = way {
        if LONG <= size {
            return Grain {
                shift: 8,
                block: 256,
            };
        }
    }
    Grain {
        shift: 6,
        block: 64,
    }
}

// The table that a way needs.
fn fill(way: Way, text: &[u8], grain: Grain, total: usize, table: &mut [u32; PLACES])
    requires { BackFillable text.now table.old grain total }
    ensures { TabledBy way text.now table.new grain }
{
    match way {
        Way::ToCharacters => chars_places::fill_places(text, grain, table),
        Way::ToBytes => chars_back::fill_back(text, grain, total, table),
    }
}
