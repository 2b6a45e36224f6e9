// Numbers of 32 bits stored in bytes, the lowest byte first: words.
#![tactic(auto)]

ghost use Rattle.std.specs.Prelude.{◌≡◌, ◌+◌, ◌*◌, ◌≤◌, length, drop};
ghost use Rattle.std.proofs.lemmas.List.Edits.{sets};
ghost use Rattle.words.specs.Words.{word_bytes, word_at, words_at};

// The bytes of a word.
pub const WORD: usize = 4;

// The word whose bytes begin at a place.
pub fn word_at(bytes: &[u8], at: usize) -> u32
    requires { at + word_bytes ≤ length bytes.now }
    ensures { result ≡ word_at (drop at bytes.now) }
{
    u32::from_le_bytes([bytes[at], bytes[at + 1], bytes[at + 2], bytes[at + 3]])
}

// So many words, one after another from the first byte on, put at the start of `out`.
pub fn read_words(bytes: &[u8], out: &mut [u32], count: usize)
    requires { (count * word_bytes ≤ length bytes.now) × (count ≤ length out.old) }
    ensures { out.new ≡ sets out.old 0 (words_at count bytes.now) }
{
    for i in 0..count {
        out[i] = word_at(bytes, i * WORD);
    }
}
