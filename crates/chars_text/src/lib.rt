// Texts in UTF-8 (RFC 3629): the character at a place.
#![tactic(auto)]

ghost use Rattle.std.specs.Prelude.{◌≡◌, ◌+◌, ◌-◌, ◌≤◌, ◌<◌, length, drop, replicate};
ghost use Rattle.chars_text.specs.Utf8.{tail, begins, character};
ghost use Rattle.chars_text.specs.Promises.{width_by, low_by, high_by};

// Whether a byte is one that follows the first of a character.
pub fn is_tail(byte: u8) -> bool
    ensures { result ≡ tail byte }
{
    0x80 <= byte && byte <= 0xBF
}

// How many bytes a character has that begins with this byte; 0 if none does.
fn width(first: u8) -> usize
    ensures { result ≡ width_by first }
{
    if first < 0x80 {
        return 1;
    }
    if first < 0xC2 {
        return 0;
    }
    if first < 0xE0 {
        return 2;
    }
    if first < 0xF0 {
        return 3;
    }
    if first < 0xF5 {
        return 4;
    }
    0
}

// The least second byte. A smaller one would write a character longer than need be.
fn low(first: u8) -> u8
    ensures { result ≡ low_by first }
{
    match first {
        0xE0 => 0xA0,
        0xF0 => 0x90,
        _ => 0x80,
    }
}

// The greatest second byte. A larger one would write a surrogate, or a number above 0x10FFFF.
fn high(first: u8) -> u8
    ensures { result ≡ high_by first }
{
    match first {
        0xED => 0x9F,
        0xF4 => 0x8F,
        _ => 0xBF,
    }
}

// Whether the bytes after the second of a character of this size are tails.
fn tails(text: &[u8], at: usize, size: usize) -> bool
    requires { (2 ≤ size) × (size ≤ 4) × (at + size ≤ length text.now) }
    ensures { result ≡ begins (replicate (size - 2) tail) (drop (at + 2) text.now) }
{
    match size {
        2 => true,
        3 => is_tail(text[at + 2]),
        _ => is_tail(text[at + 2]) && is_tail(text[at + 3]),
    }
}

// How many bytes the character at a place has; 0 if there is none. A number and no Option: it is `character` of specs/, and no
// character has 0 bytes.
pub fn character_at(text: &[u8], at: usize) -> usize
    requires { at < length text.now }
    ensures { result ≡ character (drop at text.now) }
{
    let first = text[at];
    // Most characters have one byte.
    if first < 0x80 {
        return 1;
    }
    let size = width(first);
    if size == 0 {
        return 0;
    }
    if text.len() - at < size {
        return 0;
    }
    let second = text[at + 1];
    if second < low(first) {
        return 0;
    }
    if high(first) < second {
        return 0;
    }
    if tails(text, at, size) {
        return size;
    }
    0
}
