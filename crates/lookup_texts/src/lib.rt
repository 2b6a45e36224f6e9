// The text of a row and the span of a node, in a batch of any number of encodings. Rows and nodes are numbered through
// the whole batch, windows included, depth first.
#![tactic(auto)]

ghost use Rattle.std.specs.Prelude.{◌≡◌, ◌*◌, ◌≤◌, length};
ghost use Rattle.lookup_texts.specs.Promises.{rows_before};
ghost use Rattle.lookup_texts.specs.NodeSpan.{span_answer};
ghost use Rattle.lookup_texts.specs.RowText.{pool_of, text_answer, part_of};
ghost use Rattle.record.specs.Flat.{node_width};
ghost use Rattle.record.specs.Read.{read};

use record::{Column, Encoding, Place, Refusal, Row};

// Where a row's text lies: in the token texts (pool 0) or the added texts (pool 1), from start on.
#[derive(Clone, Copy)]
pub struct TextPlace {
    pub pool: u32,
    pub start: u32,
    pub length: u32,
}

// A node's least offset start and greatest offset end over its own rows with special mask 0.
#[derive(Clone, Copy)]
pub struct Offsets {
    pub start: Place,
    pub end: Place,
}

// Where the text of a row lies in the two pools, nothing past the last row. Refused with 1, and with 14 if the text
// passes the end of its pool.
pub fn text(
    nodes: &[u32],
    rows: &[u32],
    row: Row,
    tokens: &[u8],
    added: &[u8],
) -> Result<Option<TextPlace>, Refusal>
    ensures { result ≡ text_answer (read nodes.now rows.now) row.0 tokens.now
        added.now }
{
    record_check::check_batch(nodes, rows)?;
    let at = row.0 as usize * Encoding::ROW_WIDTH;
    if rows.len() <= at {
        return Ok(None);
    }
    let pool = rows[at + Column::POOL];
    let start = rows[at + Column::TEXT_START];
    let length = rows[at + Column::TEXT_LENGTH];
    if start as usize + (length as usize) <= pool_of(pool, tokens, added).len() {
        Ok(Some(TextPlace {
            pool,
            start,
            length,
        }))
    } else {
        Err(Refusal::TextOutsidePool)
    }
}

// The text of a row, as a part of whichever pool holds it; empty unless `text` finds it.
pub fn text_part<'a>(
    nodes: &[u32],
    rows: &[u32],
    row: Row,
    tokens: &'a [u8],
    added: &'a [u8],
) -> &'a [u8]
    ensures { result.now ≡ part_of
        (text_answer (read nodes.now rows.now) row.0 tokens.now added.now)
        tokens.now added.now }
{
    // Three arms: after a `let .. else` a proof does not know that there is no text.
    match text(nodes, rows, row, tokens, added) {
        Ok(Some(found)) => {
            let from = found.start as usize;
            let to = from + found.length as usize;
            &pool_of(found.pool, tokens, added)[from..to]
        }
        Ok(None) => &tokens[..0],
        Err(_) => &tokens[..0],
    }
}

// A node's least offset start and greatest offset end over its own rows with special mask 0, nothing without such rows or
// past the last node. Refused with 1.
pub fn span(nodes: &[u32], rows: &[u32], node: u32) -> Result<Option<Offsets>, Refusal>
    ensures { result ≡ span_answer (read nodes.now rows.now) node }
{
    record_check::check_batch(nodes, rows)?;
    let at = node as usize * Encoding::NODE_WIDTH;
    if nodes.len() <= at {
        return Ok(None);
    }
    let first = rows_before(nodes, node);
    let Some(seen) = lookup_spans::span_of(rows, first, nodes[at] as usize) else {
        return Ok(None);
    };
    Ok(Some(Offsets {
        start: Place(seen.start),
        end: Place(seen.end),
    }))
}

// The number of rows of the nodes before this one, after which its own begin.
fn rows_before(nodes: &[u32], node: u32) -> usize
    requires { node * node_width ≤ length nodes.now }
    ensures { result ≡ rows_before nodes.now node }
{
    let mut count: usize = 0;
    for i in 0..node as usize {
        count += nodes[i * Encoding::NODE_WIDTH] as usize;
    }
    count
}

// The pool that holds a text.
fn pool_of<'a>(pool: u32, tokens: &'a [u8], added: &'a [u8]) -> &'a [u8]
    ensures { result.now ≡ pool_of pool tokens.now added.now }
{
    if pool == 0 { tokens } else { added }
}
