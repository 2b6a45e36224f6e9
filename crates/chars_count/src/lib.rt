// Counting the bytes of a text that are no tails, which are the first bytes of its characters: a block of bytes at a time.
#![tactic(auto)]

ghost use Rattle.std.specs.Prelude.{◌≡◌, ◌-◌, ◌≤◌, length, take, drop};
ghost use Rattle.chars_text.specs.Characters.{starts};
ghost use Rattle.chars_count.specs.Promises.{byte_largest, start_of};

// How many bytes are taken together. They are counted in a byte, so that the compiler adds many at once.
pub const BLOCK: usize = 64;

// 1 for a byte that is no tail, 0 for a tail.
pub fn start(byte: u8) -> u8
    ensures { result ≡ start_of byte }
{
    match byte {
        0x80..=0xBF => 0,
        _ => 1,
    }
}

// How many bytes of a block are no tails.
pub fn count_block(block: &[u8]) -> u8
    requires { length block.now ≤ byte_largest }
    ensures { result ≡ starts block.now }
{
    let mut count: u8 = 0;
    for byte in block {
        count += start(*byte);
    }
    count
}

// How many bytes are no tails, from one place of a text up to another: of whole blocks, whose size the compiler knows, and of the rest.
pub fn count_starts(text: &[u8], from: usize, to: usize) -> usize
    requires { (from ≤ to) × (to ≤ length text.now) }
    ensures { result ≡ starts (take (to - from) (drop from text.now)) }
{
    let mut count: usize = 0;
    let blocks = (to - from) / BLOCK;
    for k in 0..blocks {
        let at = from + k * BLOCK;
        count += count_block(&text[at..at + BLOCK]) as usize;
    }
    count + count_block(&text[from + blocks * BLOCK..to]) as usize
}
