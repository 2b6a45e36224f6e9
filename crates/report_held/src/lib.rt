// What is held of the input of the report program while it comes in pieces (document 02, request 03), and what is told at its end.
#![tactic(auto)]

ghost use Rattle.std.specs.Prelude.{List, [], ◌≡◌, ℕ, ◌≤◌, ◌<◌, length};
ghost use Rattle.report_held.specs.Input.{most_stored, report_of};
ghost use Rattle.report_held.specs.Promises.{resumed, LentStores, Partial, TakesNext, Arrived, Settles};

use record::Refusal;
use report_stored::{HEAD, MOST};
use report_trees::Report;

// What is known of an input so far: the report over the batches that have come whole, or the first refusal; and how many bytes of
// the next batch are held.
#[derive(Clone, Copy)]
pub struct Held {
    pub bytes: usize,
    pub report: Result<Report, Refusal>,
}

// An input of which nothing has come.
pub fn start() -> Held
    ensures { (result.bytes ≡ 0) × ((batch more : List ℕ) → resumed result batch more ≡ report_of more) }
{
    Held {
        bytes: 0,
        report: Ok(Report::empty()),
    }
}

// How many bytes are taken next, of so many that are there: up to the end of the counts, and then up to the end of the batch.
pub fn taken(batch: &[u8], held: usize, left: usize) -> usize
    requires { (length batch.now ≡ most_stored) × Partial batch.now held × (0 < left) }
    ensures { TakesNext batch.now held left result }
{
    if held < HEAD {
        return (HEAD - held).min(left);
    }
    (report_stored::stored_size(batch) - held).min(left)
}

// What is held once so many bytes of a batch have come: these, or if they are a whole batch, the report with it.
pub fn settle(batch: &[u8], bytes: usize, report: Report, numbers: &mut [u32]) -> Held
    requires lent_stores { LentStores batch.now numbers.old }
    requires arrived { Arrived batch.now bytes }
    ensures { Settles batch.now bytes report result }
{
    if bytes < HEAD {
        return waits(bytes, Ok(report));
    }
    let size = report_stored::stored_size(batch);
    if MOST < size {
        return waits(0, Err(Refusal::NoRoom));
    }
    if bytes < size {
        return waits(bytes, Ok(report));
    }
    waits(0, report_stored::add_stored(batch, numbers, report))
}

// Bytes that wait for the rest of their batch.
fn waits(bytes: usize, report: Result<Report, Refusal>) -> Held
    ensures { (result.bytes ≡ bytes) × (result.report ≡ report) }
{
    Held { bytes, report }
}

// What is told of an input that has ended: one that ends within a batch is cut short.
pub fn finish(held: Held, batch: &[u8]) -> Result<Report, Refusal>
    requires { Partial batch.now held.bytes × (held.bytes ≤ length batch.now) }
    ensures { result ≡ resumed held batch.now [] }
{
    let report = held.report?;
    if held.bytes == 0 {
        return Ok(report);
    }
    Err(Refusal::MalformedRecord)
}
