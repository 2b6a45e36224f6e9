// A batch as the report program reads it (document 02, request 03): its node count, its row count, its nodes and its rows, in words.
#![tactic(auto)]

ghost use Rattle.std.specs.Prelude.{◌≡◌, ◌-◌, ◌*◌, ◌≤◌, length, take, drop};
ghost use Rattle.record.specs.Flat.{row_width, node_width};
ghost use Rattle.record.specs.Read.{read};
ghost use Rattle.report_stored.specs.Stored.{head_bytes, largest_word, node_words, row_words, stored_size, stored_batch, Whole};
ghost use Rattle.report_trees.specs.Report.{add_answer};

use record::{Encoding, Refusal};
use report_trees::Report;
use words::WORD;

// The bytes of the two counts.
pub const HEAD: usize = 2 * WORD;

// The most bytes of a batch with its counts, and the most numbers in them.
pub const MOST: usize = 65536;

pub const NUMBERS: usize = (MOST - HEAD) / WORD;

// How many bytes a batch takes by its counts, which are themselves counted.
pub fn stored_size(bytes: &[u8]) -> usize
    requires { head_bytes ≤ length bytes.now }
    ensures { result ≡ stored_size bytes.now }
{
    HEAD + (node_numbers(bytes) + row_numbers(bytes)) * WORD
}

// How many numbers its nodes are.
fn node_numbers(bytes: &[u8]) -> usize
    requires { head_bytes ≤ length bytes.now }
    ensures { (result ≡ node_words bytes.now) × (result ≤ largest_word * node_width) }
{
    words::word_at(bytes, 0) as usize * Encoding::NODE_WIDTH
}

// How many its rows are.
fn row_numbers(bytes: &[u8]) -> usize
    requires { head_bytes ≤ length bytes.now }
    ensures { (result ≡ row_words bytes.now) × (result ≤ largest_word * row_width) }
{
    words::word_at(bytes, WORD) as usize * Encoding::ROW_WIDTH
}

// The batch added to a report. Its numbers are put at the start of `numbers`, whose contents afterwards are left open.
pub fn add_stored(bytes: &[u8], numbers: &mut [u32], report: Report) -> Result<Report, Refusal>
    requires { Whole bytes.now numbers.old }
    ensures { result ≡ add_answer (stored_batch bytes.now) report }
{
    let nodes = node_numbers(bytes);
    let all = nodes + row_numbers(bytes);
    words::read_words(&bytes[HEAD..], numbers, all);
    add_numbers(numbers, nodes, all, report)
}

// The batch whose nodes are the first numbers, and whose rows are those after them, added to a report.
fn add_numbers(numbers: &[u32], nodes: usize, all: usize, report: Report) -> Result<Report, Refusal>
    requires { (nodes ≤ all) × (all ≤ length numbers.now) }
    ensures { result ≡ add_answer
        (read (take nodes numbers.now) (take (all - nodes) (drop nodes numbers.now)))
        report }
{
    report_batch::report_add(&numbers[..nodes], &numbers[nodes..all], report)
}
