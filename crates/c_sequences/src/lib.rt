// The C interface of the lookups of sequences. Each function returns the number of its refusal, 0 for none, and gives its
// values through lent numbers, which a refusal leaves as they were. include/noddrefyr.h is made from this file too.
#![tactic(auto)]

ghost use Rattle.std.specs.Prelude.{◌≡◌, length};
ghost use Rattle.c_crossing.specs.Crossing.{Crosses};
ghost use Rattle.c_sequences.specs.Answers.{range_crossed, count_crossed, sequence_crossed, column_crossed};
ghost use Rattle.lookup_sequences.specs.Answers.{range_answer, sequence_count_answer, sequence_answer, column_answer, column_left, sequence_ids};
ghost use Rattle.record.specs.Read.{read};

use record::Row;

// The rows of a sequence of one encoding: start, end (not included). Refused with 1.
#[unsafe(no_mangle)]
pub extern "C" fn noddrefyr_sequence_range(
    nodes: &[u32],
    rows: &[u32],
    sequence_id: u32,
    answer: &mut [u32; 2],
) -> u32
    ensures { Crosses
        (range_crossed answer.old
        (range_answer (read nodes.now rows.now) sequence_id))
        result answer.new }
{
    let told = match lookup_sequences::sequence_range(nodes, rows, sequence_id) {
        Ok(found) => Ok([found.start.0, found.end.0]),
        Err(why) => Err(why),
    };
    c_crossing::cross(told, answer)
}

// The number of sequences of one encoding. Refused with 1.
#[unsafe(no_mangle)]
pub extern "C" fn noddrefyr_n_sequences(nodes: &[u32], rows: &[u32], answer: &mut [u32; 1]) -> u32
    ensures { Crosses
        (count_crossed answer.old (sequence_count_answer (read nodes.now rows.now))) result
        answer.new }
{
    let told = match lookup_sequences::n_sequences(nodes, rows) {
        Ok(n) => Ok([n]),
        Err(why) => Err(why),
    };
    c_crossing::cross(told, answer)
}

// The sequence that a row of one encoding is in, and the row's place from the start of it: found or not, sequence, place.
// Without ranges sequence 0 and the row's own number. Refused with 1.
#[unsafe(no_mangle)]
pub extern "C" fn noddrefyr_token_to_sequence(
    nodes: &[u32],
    rows: &[u32],
    token: u32,
    answer: &mut [u32; 3],
) -> u32
    ensures { Crosses
        (sequence_crossed answer.old (sequence_answer (read nodes.now rows.now) token))
        result answer.new }
{
    let told = match lookup_sequences::token_to_sequence(nodes, rows, Row(token)) {
        Ok(Some(found)) => Ok([1, found.sequence, found.place.0]),
        Ok(None) => Ok([0; 3]),
        Err(why) => Err(why),
    };
    c_crossing::cross(told, answer)
}

// The mark and the sequence of each row of one encoding, written to out; written is the number of rows. Refused with 1, 2.
#[unsafe(no_mangle)]
pub extern "C" fn noddrefyr_get_sequence_ids(
    nodes: &[u32],
    rows: &[u32],
    out: &mut [u32],
    written: &mut [usize; 1],
) -> u32
    ensures answer { Crosses
        (column_crossed written.old
        (column_answer (sequence_ids (read nodes.now rows.now) (length out.old))))
        result written.new }
    ensures left { out.new ≡
        column_left (sequence_ids (read nodes.now rows.now) (length out.old))
        out.old }
{
    // A match: `c_crossing::cross` is for numbers of 32 bits, and this one has the width of a length.
    match lookup_sequences::get_sequence_ids(nodes, rows, out) {
        Err(why) => why.number(),
        Ok(n) => {
            *written = [n];
            0
        }
    }
}
