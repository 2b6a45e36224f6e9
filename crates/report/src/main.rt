// The report program (document 02, request 03): reads batches from standard input to its end, and prints one report over all of
// them, or the first refusal.
//
// What stands in the input is told by `report_input` and `report_held`, whatever the pieces in which it is read, and what is printed
// are bytes of `report_lines`. `input` reads and `output` writes. After a read that failed nothing is printed: standard error has
// a line.
#![tactic(auto)]

ghost use Rattle.std.specs.Prelude.{◌≡◌, take as List·take};
ghost use Rattle.io.specs.Counts.{IsPrefixLen};
ghost use Rattle.report_held.specs.Promises.{LentStores, Partial};
ghost use Rattle.output.specs.Promises.{WritesBytes};
ghost use Rattle.report.specs.Turns.{goes_on};
ghost use Rattle.report_input.specs.Promises.{Feeds};
ghost use Rattle.report_lines.specs.Lines.{answer_lines};

use input_lines::{PIECE, Unread};
use output::Written;
use record::Refusal;
use report_held::Held;
use report_lines::ROOM;
use report_stored::{MOST, NUMBERS};
use report_trees::Report;

fn main(rt: HostRuntime) {
    let mut piece = [0u8; PIECE];
    let mut batch = [0u8; MOST];
    let mut numbers = [0u32; NUMBERS];
    report_all(&rt, &mut piece, &mut batch, &mut numbers);
}

// Takes the input up to its end or the first refusal, and prints what is told of it. A proved loop has to end, and nothing says that
// an input does: so the turns are counted, up to a number that no run uses up.
fn report_all(
    rt: &(impl Input + Print + Eprint),
    piece: &mut [u8; PIECE],
    batch: &mut [u8],
    numbers: &mut [u32],
)
    requires { LentStores batch.old numbers.old }
{
    let mut held = report_held::start();
    let mut unread = input::start();
    for _ in 0..u64::MAX {
        unread = input::read_piece(rt, piece);
        held = take(piece, unread, held, batch, numbers);
        if !goes_on(unread, held.report) {
            break;
        }
    }
    if !unread.failed {
        print_answer(rt, report_held::finish(held, batch));
    }
}

// Takes what was read of a piece.
fn take(piece: &[u8], unread: Unread, held: Held, batch: &mut [u8], numbers: &mut [u32]) -> Held
    requires prefix_len { IsPrefixLen unread.end piece.now }
    requires lent_stores { LentStores batch.old numbers.old }
    requires partial { Partial batch.old held.bytes }
    ensures { Feeds (List·take unread.end piece.now) held batch.old result batch.new }
{
    let end = unread.end;
    report_input::feed(&piece[..end], held, batch, numbers)
}

// Whether more is read: not once the input is refused, whatever follows, or has ended.
fn goes_on(unread: Unread, report: Result<Report, Refusal>) -> bool
    ensures { result ≡ goes_on unread report }
{
    report.is_ok() && unread.open
}

// Prints a report, or the number of a refusal.
fn print_answer(rt: &(impl Print + Eprint), answer: Result<Report, Refusal>) -> Written
    ensures { WritesBytes (answer_lines answer) result }
{
    let mut out = [0u8; ROOM];
    let count = report_lines::write_answer(answer, &mut out);
    output::print(rt, &out[..count])
}
