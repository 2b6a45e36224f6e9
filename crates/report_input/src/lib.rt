// The input of the report program, taken piece by piece as it is read (document 02, request 03). Whatever the pieces, what is told
// in the end is what `report_of` says of all bytes together.
#![tactic(auto)]

ghost use Rattle.std.specs.Prelude.{◌<◌, length};
ghost use Rattle.report_held.specs.Promises.{LentStores, Partial};
ghost use Rattle.report_input.specs.Promises.{Moves, Feeds};

use report_held::Held;

// How far a piece has been taken.
#[derive(Clone, Copy)]
pub struct Step {
    pub at: usize,
    pub held: Held,
}

// Takes a piece of the input. `batch` has the bytes held at its start, and `numbers` is for those of a batch that has come whole;
// what stands in `numbers` afterwards, and in `batch` behind the bytes held, is left open.
pub fn feed(piece: &[u8], before: Held, batch: &mut [u8], numbers: &mut [u32]) -> Held
    requires lent_stores { LentStores batch.old numbers.old }
    requires partial { Partial batch.old before.bytes }
    ensures { Feeds piece.now before batch.old result batch.new }
{
    let mut step = Step {
        at: 0,
        held: before,
    };
    // A while: how far a step goes is what the counts or the batch still want.
    while step.at < piece.len() {
        step = next(piece, step, batch, numbers);
    }
    step.held
}

// Takes as many bytes as the counts or the batch still want. After a refusal the rest is passed over.
fn next(piece: &[u8], from: Step, batch: &mut [u8], numbers: &mut [u32]) -> Step
    requires lent_stores { LentStores batch.old numbers.old }
    requires partial { Partial batch.old from.held.bytes }
    requires at_in_bounds { from.at < length piece.now }
    ensures { Moves piece.now from batch.old result batch.new }
{
    let held = from.held;
    let Ok(report) = held.report else {
        return Step {
            at: piece.len(),
            held,
        };
    };
    let at = from.at;
    let end = at + report_held::taken(batch, held.bytes, piece.len() - at);
    let bytes = listing_text::write_text(&piece[at..end], batch, held.bytes);
    Step {
        at: end,
        held: report_held::settle(batch, bytes, report, numbers),
    }
}
