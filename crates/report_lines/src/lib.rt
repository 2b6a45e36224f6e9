// What the report program prints (document 02, request 03), as bytes.
#![tactic(auto)]

ghost use Rattle.std.specs.Prelude.{[], ◌∷◌, ◌++◌, ◌+◌, ◌*◌, ◌≤◌, length};
ghost use Rattle.listing_text.specs.Promises.{WroteText};
ghost use Rattle.listing_text.specs.Text.{long_digits, long_text};
ghost use Rattle.report_lines.specs.Lines.{number_line, share_line, report_lines, answer_lines};
ghost use Rattle.report_lines.specs.Parts.{answer_room, longest_total, longest_share, node_lines, kind_lines};

use fractions::Fraction;
use record::Refusal;
use report_trees::Report;

const SPACE: u8 = b' ';

const NEWLINE: u8 = b'\n';

// Room for the longest answer, whose six totals and two numbers of the share have 20 digits each.
pub const ROOM: usize = 256;

// What is printed of a report, or of a refusal, and how many bytes it has.
pub fn write_answer(answer: Result<Report, Refusal>, out: &mut [u8; ROOM]) -> usize
    ensures { WroteText (answer_lines answer) out.old 0 result out.new }
{
    match answer {
        Err(why) => write_line(b"refused ", why.number() as u64, out, 0),
        Ok(report) => write_report(report, out),
    }
}

// The six totals, and the share of padding.
fn write_report(report: Report, out: &mut [u8; ROOM]) -> usize
    ensures { WroteText (report_lines report) out.old 0 result out.new }
{
    let share = report_share::report_share(report);
    let kinds = write_nodes(report, out);
    let last = write_kinds(report, out, kinds);
    write_share(share, out, last)
}

// How many encodings, windows and rows there are.
fn write_nodes(report: Report, out: &mut [u8; ROOM]) -> usize
    ensures { WroteText (node_lines report) out.old 0 result out.new }
{
    let windows = write_line(b"encodings ", report.encodings, out, 0);
    let rows = write_line(b"windows ", report.windows, out, windows);
    write_line(b"rows ", report.rows, out, rows)
}

// How many rows of each kind there are.
fn write_kinds(report: Report, out: &mut [u8; ROOM], at: usize) -> usize
    requires { at + 3 * longest_total ≤ answer_room }
    ensures { WroteText (kind_lines report) out.old at result out.new }
{
    let special = write_line(b"padding ", report.padding, out, at);
    let rest = write_line(b"special ", report.special, out, special);
    write_line(b"rest ", report.rest, out, rest)
}

// The line of the share, with its two numbers.
fn write_share(share: Fraction, out: &mut [u8; ROOM], at: usize) -> usize
    requires { at + longest_share ≤ answer_room }
    ensures { WroteText (share_line share) out.old at result out.new }
{
    let part = listing_text::write_text(b"share ", out, at);
    let whole = write_ended(share.part, SPACE, out, part);
    write_ended(share.whole, NEWLINE, out, whole)
}

// The line of one number: a word with a space after it, and the number.
fn write_line(word: &[u8], value: u64, out: &mut [u8; ROOM], at: usize) -> usize
    requires { at + length word.now + long_digits + 1 ≤ answer_room }
    ensures { WroteText (number_line word.now value) out.old at result out.new }
{
    let number = listing_text::write_text(word, out, at);
    write_ended(value, NEWLINE, out, number)
}

// A number, and the byte that ends it.
fn write_ended(value: u64, end: u8, out: &mut [u8; ROOM], at: usize) -> usize
    requires { at + long_digits + 1 ≤ answer_room }
    ensures { WroteText (long_text value ++ (end ∷ [])) out.old at result out.new }
{
    let next = listing_text::write_number(value, out, at);
    listing_text::write_byte(end, out, next)
}
