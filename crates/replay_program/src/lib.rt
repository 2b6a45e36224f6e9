// The cases of a replay program, what the lines of its input hold, and the loop that replays them.
//
// A line that starts with `#` is a comment, and an empty line is skipped. Any other line is one case: decimal numbers with
// single spaces between them. They are the operation's number, two lists (the nodes and the rows of a batch, the entries and
// the members of a special table, or one list and nothing), what else the operation asks, and the expected answers; a list is
// its length and then its numbers. The last line may lack its newline.
#![tactic(auto)]

ghost use Rattle.std.specs.Prelude.{◌≡◌, false, length, IfOk, IfSome};
ghost use Rattle.io.specs.Counts.{IsPrefixLen};
ghost use Rattle.replay_counts.specs.Counting.{Tallied};
ghost use Rattle.replay_program.specs.Comments.{skips};
ghost use Rattle.replay_program.specs.Promises.{Inside, is_skipped};

use input_lines::{PIECE, TooLong, Unread};
use replay_answers::Outcome;
use replay_cases::Part;
use replay_counts::Progress;

const COMMENT: u8 = b'#';

// The most bytes of a line, and the most numbers of a case.
pub const LINE: usize = 65536;

pub const NUMBERS: usize = 8192;

// A case among the numbers that are read: its operation, its two lists, and the end of what follows them.
#[derive(Clone, Copy)]
pub struct Case {
    pub operation: u32,
    pub first: Part,
    pub second: Part,
    pub end: usize,
}

// Why a line has no case: it is empty or a comment, or it cannot be read as one.
#[derive(Clone, Copy)]
pub enum NoCase {
    Skipped,
    Bad,
}

// A line of the input, if there is one: the case that it holds.
#[derive(Clone, Copy)]
pub struct Next {
    pub case: Option<Result<Case, NoCase>>,
    pub unread: Unread,
}

// Replays all of the input, up to a read or a write that fails: the operation of each case, its two lists and what follows them
// are handed to `replay`. Answers the counts that it printed.
pub fn replay_all<F: Fn(u32, &[u32], &[u32], &[u32]) -> Outcome>(
    rt: &(impl Input + Print + Eprint),
    replay: F,
) -> Progress
    requires { F.IsAlwaysCallable replay }
    ensures { Tallied result }
{
    let mut piece = [0u8; PIECE];
    let mut line = [0u8; LINE];
    let mut numbers = [0u32; NUMBERS];
    replay_input(rt, &mut piece, &mut line, &mut numbers, replay)
}

// A proved loop has to end, and nothing says that an input does: so the turns are counted, up to a number that no run uses up.
fn replay_input<F: Fn(u32, &[u32], &[u32], &[u32]) -> Outcome>(
    rt: &(impl Input + Print + Eprint),
    piece: &mut [u8; PIECE],
    line: &mut [u8; LINE],
    numbers: &mut [u32; NUMBERS],
    replay: F,
) -> Progress
    requires { F.IsAlwaysCallable replay }
    ensures { Tallied result }
{
    let mut progress = replay_counts::start();
    let mut unread = input::start();
    for _ in 0..u64::MAX {
        let next = next_case(rt, piece, line, numbers, unread);
        unread = next.unread;
        let Some(held) = next.case else {
            break;
        };
        let outcome = match held {
            Ok(case) => replay_parts(case, numbers, &replay),
            Err(NoCase::Skipped) => Outcome::Skipped,
            Err(NoCase::Bad) => Outcome::Bad,
        };
        progress = replay_counts::counted(rt, progress, outcome);
        if progress.failed {
            break;
        }
    }
    replay_counts::print_counts(rt, progress, unread)
}

fn replay_parts<F: Fn(u32, &[u32], &[u32], &[u32]) -> Outcome>(
    case: Case,
    numbers: &[u32],
    replay: &F,
) -> Outcome
    requires inside { Inside case (length numbers.now) }
    requires callable { F.IsAlwaysCallable replay.now }
{
    let first_start = case.first.start;
    let first_end = case.first.end;
    let second_start = case.second.start;
    let second_end = case.second.end;
    let end = case.end;
    replay(
        case.operation,
        &numbers[first_start..first_end],
        &numbers[second_start..second_end],
        &numbers[second_end..end],
    )
}

// The next line of the input and its case, whose numbers are put at the start of `numbers`.
pub fn next_case(
    rt: &(impl Input + Eprint),
    piece: &mut [u8; PIECE],
    line: &mut [u8; LINE],
    numbers: &mut [u32; NUMBERS],
    before: Unread,
) -> Next
    ensures { IfSome result.case (λ held. IfOk held (λ case. Inside case (length numbers.new))) }
{
    let next = input::next_line(rt, piece, line, before);
    let unread = next.unread;
    let Some(held) = next.held else {
        return Next { case: None, unread };
    };
    Next {
        case: Some(held_case(line, held, numbers)),
        unread,
    }
}

// A line longer than its buffer holds no case.
fn held_case(line: &[u8], held: Result<usize, TooLong>, numbers: &mut [u32]) -> Result<Case, NoCase>
    requires { IfOk held (λ count. IsPrefixLen count line.now) }
    ensures { IfOk result (λ case. Inside case (length numbers.new)) }
{
    match held {
        Ok(count) => read_case(&line[..count], numbers),
        Err(_) => Err(NoCase::Bad),
    }
}

// The case that a line holds, its numbers put at the start of `numbers`.
pub fn read_case(line: &[u8], numbers: &mut [u32]) -> Result<Case, NoCase>
    ensures inside { IfOk result (λ case. Inside case (length numbers.new)) }
    ensures skipped_value { is_skipped result ≡ skips line.now }
{
    if skipped(line) {
        return Err(NoCase::Skipped);
    }
    match replay_cases::read_numbers(line, numbers) {
        Some(count) => parts(&numbers[..count]),
        None => Err(NoCase::Bad),
    }
}

// Whether a line is empty or a comment.
fn skipped(line: &[u8]) -> bool
    ensures { result ≡ skips line.now }
{
    if line.len() == 0 {
        return true;
    }
    line[0] == COMMENT
}

// Where the lists of a case lie. If the first does not fit, neither does the second.
fn parts(numbers: &[u32]) -> Result<Case, NoCase>
    ensures inside { IfOk result (λ case. Inside case (length numbers.now)) }
    ensures skipped_value { is_skipped result ≡ false }
{
    let first = replay_cases::list_at(numbers, 1);
    let second = replay_cases::list_at(numbers, first.end);
    if !second.fits {
        return Err(NoCase::Bad);
    }
    Ok(Case {
        operation: replay_cases::number_at(numbers, 0),
        first,
        second,
        end: numbers.len(),
    })
}
