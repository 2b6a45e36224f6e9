// Whether the offsets of a batch can be converted, decided before anything is written (document 02, request 01: 1, 16, 17, 18).
#![tactic(auto)]

ghost use Rattle.std.specs.Prelude.{true, ◌≡◌};
ghost use Rattle.record.specs.Read.{read};
ghost use Rattle.offsets_verdict.specs.Promises.{looked_at, rows_verdict};
ghost use Rattle.offsets_verdict.specs.Verdicts.{is_text, of_fault, verdict_of};

use offsets_trees::{Fault, Way};
use record::{Encoding, Refusal};

// The longest text: an offset is a number of 32 bits.
const MOST_BYTES: usize = 4_294_967_295;

// Whether a text is UTF-8 and not too long.
fn is_text(text: &[u8]) -> bool
    ensures { result ≡ is_text text.now }
{
    text.len() <= MOST_BYTES && chars_check::well_formed(text)
}

// The number of characters, refused with 17 or 18 where there is a fault.
fn told(fault: Option<Fault>, total: usize) -> Result<usize, Refusal>
    ensures { result ≡ of_fault fault total }
{
    match fault {
        None => Ok(total),
        Some(Fault::PastEnd) => Err(Refusal::OffsetPastEnd),
        Some(Fault::InsideCharacter) => Err(Refusal::OffsetInsideCharacter),
    }
}

// The way whose offsets are looked at. In a text of as many characters as bytes both ways ask the same of an offset, and towards bytes
// it is told without reading the text.
fn looked_at(way: Way, bytes: usize, total: usize) -> Way
    ensures { result ≡ looked_at way bytes total }
{
    if total == bytes { Way::ToBytes } else { way }
}

// What is wrong with the rows of a batch, if anything is; else the number of characters.
fn rows_verdict(way: Way, rows: &[u32], text: &[u8]) -> Result<usize, Refusal>
    requires { is_text text.now ≡ true }
    ensures { result ≡ rows_verdict way rows.now text.now }
{
    let total = chars_count::count_starts(text, 0, text.len());
    let count = rows.len() / Encoding::ROW_WIDTH;
    let looked = looked_at(way, text.len(), total);
    told(
        offsets_check::rows_fault(looked, text, total, rows, count),
        total,
    )
}

// Why the offsets of a batch cannot be converted; or, if they can, the number of the text's characters.
pub fn judge(way: Way, nodes: &[u32], rows: &[u32], text: &[u8]) -> Result<usize, Refusal>
    ensures { result ≡ verdict_of way (read nodes.now rows.now) text.now }
{
    record_check::check_batch(nodes, rows)?;
    if !is_text(text) {
        return Err(Refusal::NotText);
    }
    rows_verdict(way, rows, text)
}
