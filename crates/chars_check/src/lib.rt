// Whether a text is well-formed UTF-8 (RFC 3629): a block of bytes at a time, and by characters where a block has longer ones and behind the
// last block.
#![tactic(auto)]

ghost use Rattle.std.specs.Prelude.{◌≡◌, ◌+◌, ◌≤◌, ◌<◌, length};
ghost use Rattle.chars_text.specs.Characters.{well_formed};
ghost use Rattle.chars_count.specs.Promises.{block_bytes, byte_largest};
ghost use Rattle.chars_check.specs.Promises.{longs, Walked, PlainSkipped, Passed};

use chars_count::BLOCK;

// From how many bytes on a block's longer characters are not few: one more than four of them have at most.
const FEW: u8 = 17;

// How many bytes of a block are no characters by themselves. They are counted in a byte, so that the compiler adds many at once.
fn count_longs(block: &[u8]) -> u8
    requires { length block.now ≤ byte_largest }
    ensures { result ≡ longs block.now }
{
    let mut count: u8 = 0;
    for byte in block {
        if 0x80 <= *byte {
            count += 1;
        }
    }
    count
}

// From a place on, character by character: to the first place not before `to`, or to where there is no character.
fn walk(text: &[u8], from: usize, to: usize) -> usize
    requires { (from ≤ to) × (to ≤ length text.now) }
    ensures { Walked text.now from to result }
{
    let mut at = from;
    // A while: a step is as wide as the character that it passes.
    while at < to {
        let size = chars_text::character_at(text, at);
        if size == 0 {
            return at;
        }
        at += size;
    }
    at
}

// From a place on over bytes that are characters by themselves: to the first that is not, or to `to`.
fn skip_plain(text: &[u8], from: usize, to: usize) -> usize
    requires { (from ≤ to) × (to ≤ length text.now) }
    ensures { PlainSkipped text.now from to result }
{
    for at in from..to {
        if 0x80 <= text[at] {
            return at;
        }
    }
    to
}

// The place after a block's first longer character; the same place if that is not well-formed.
fn pass_first(text: &[u8], at: usize, to: usize) -> usize
    requires { (at < to) × (to ≤ length text.now) }
    ensures { Passed text.now at result }
{
    let first = skip_plain(text, at, to);
    if first == to {
        return to;
    }
    let size = chars_text::character_at(text, first);
    if size == 0 {
        return at;
    }
    first + size
}

// The place after the block at a place and its last character; after its first longer one where it has few, since what follows that is
// likely plain. The same place if a character of the block is not well-formed.
fn pass_block(text: &[u8], at: usize) -> usize
    requires { at + block_bytes ≤ length text.now }
    ensures { Passed text.now at result }
{
    let to = at + BLOCK;
    let longs = count_longs(&text[at..to]);
    if longs == 0 {
        return to;
    }
    if longs < FEW {
        return pass_first(text, at, to);
    }
    let next = walk(text, at, to);
    if next < to {
        return at;
    }
    next
}

// Whether a text is well-formed: characters one after another, and nothing else.
pub fn well_formed(text: &[u8]) -> bool
    ensures { result ≡ well_formed text.now }
{
    let mut at = 0;
    // A while: a step goes over a block and the rest of its last character, or over its first longer one.
    while BLOCK <= text.len() - at {
        let next = pass_block(text, at);
        if next == at {
            return false;
        }
        at = next;
    }
    walk(text, at, text.len()) == text.len()
}
