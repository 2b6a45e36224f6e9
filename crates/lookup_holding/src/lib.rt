// Which sequence holds a row, and the row's place in it, as the top node of an encoding says. The operations that check
// their input first are in lookup_sequences and lookup_tokens.
#![tactic(auto)]

ghost use Rattle.std.specs.Prelude.{◌≡◌, ◌≤◌, length};
ghost use Rattle.lookup_holding.specs.Promises.{sequence_found, first_placed};
ghost use Rattle.lookup_holding.specs.Holding.{token_to_sequence};
ghost use Rattle.lookup_ranges.specs.Promises.{OfTop};
ghost use Rattle.record.specs.Flat.{node_width};

use record::{Encoding, SequencePlace};

// The sequence that holds a row, and the row's place in it.
#[derive(Clone, Copy)]
pub struct Sequence {
    pub sequence: u32,
    pub place: SequencePlace,
}

// The sequence that holds a row, and its place from the start of that sequence's range; without ranges its own number.
pub fn sequence_of(nodes: &[u32], row: u32) -> Option<Sequence>
    requires { node_width ≤ length nodes.now }
    ensures { OfTop nodes.now (λ E. result ≡ sequence_found (token_to_sequence E row)) }
{
    if row > nodes[0] {
        return None;
    }
    if lookup_ranges::present_of(nodes) == 0 {
        return Some(Sequence {
            sequence: 0,
            place: SequencePlace(row),
        });
    }
    first_holding(nodes, row)
}

// The smallest id whose range holds the row, and the row's place from the start of that range.
pub fn first_holding(nodes: &[u32], row: u32) -> Option<Sequence>
    requires { node_width ≤ length nodes.now }
    ensures { OfTop nodes.now (λ E. result ≡ sequence_found (first_placed E row)) }
{
    for k in 0..Encoding::SEQUENCES {
        let at = Encoding::RANGES + k * Encoding::RANGE_WIDTH;
        let start = nodes[at + 1];
        if nodes[at] == 1 && start <= row && row < nodes[at + 2] {
            return Some(Sequence {
                sequence: k as u32,
                place: SequencePlace(row - start),
            });
        }
    }
    None
}
