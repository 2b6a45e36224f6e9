// The C interface of text and span. Each function returns the number of its refusal, 0 for none, and gives its values
// through lent numbers, which a refusal leaves as they were. include/noddrefyr.h is made from this file too.
#![tactic(auto)]

ghost use Rattle.c_crossing.specs.Crossing.{Crosses};
ghost use Rattle.c_texts.specs.Answers.{text_crossed, span_crossed};
ghost use Rattle.lookup_texts.specs.NodeSpan.{span_answer};
ghost use Rattle.lookup_texts.specs.RowText.{text_answer};
ghost use Rattle.record.specs.Read.{read};

use record::Row;

// Where the text of a row lies, numbered through the whole batch: found or not, pool (0 tokens, 1 added), start, length.
// Refused with 1, 14.
#[unsafe(no_mangle)]
pub extern "C" fn noddrefyr_text(
    nodes: &[u32],
    rows: &[u32],
    row: u32,
    tokens: &[u8],
    added: &[u8],
    answer: &mut [u32; 4],
) -> u32
    ensures { Crosses
        (text_crossed answer.old
        (text_answer (read nodes.now rows.now) row tokens.now
        added.now))
        result answer.new }
{
    let told = match lookup_texts::text(nodes, rows, Row(row), tokens, added) {
        Ok(Some(found)) => Ok([1, found.pool, found.start, found.length]),
        Ok(None) => Ok([0; 4]),
        Err(why) => Err(why),
    };
    c_crossing::cross(told, answer)
}

// The least offset start and the greatest offset end of a node over its own rows with special mask 0, numbered through the
// whole batch: found or not, start, end. Refused with 1.
#[unsafe(no_mangle)]
pub extern "C" fn noddrefyr_span(
    nodes: &[u32],
    rows: &[u32],
    node: u32,
    answer: &mut [u32; 3],
) -> u32
    ensures { Crosses
        (span_crossed answer.old (span_answer (read nodes.now rows.now) node)) result
        answer.new }
{
    let told = match lookup_texts::span(nodes, rows, node) {
        Ok(Some(found)) => Ok([1, found.start.0, found.end.0]),
        Ok(None) => Ok([0; 3]),
        Err(why) => Err(why),
    };
    c_crossing::cross(told, answer)
}
