// Reading decimal numbers from the bytes of a line, and gathering a line byte by byte, for the programs.
// Numbers are written by `listing_text`, and where only a count is printed by the kit's `io`.
#![tactic(auto)]

ghost use Rattle.std.specs.Prelude.{◌≡◌, ◌+◌, min, length, set};
ghost use Rattle.lines.specs.Decimal.{number_at};

const ZERO: u8 = b'0';

const NINE: u8 = b'9';

// A number has 1 to 10 digits and is at most the largest u32.
const MOST_DIGITS: usize = 10;

const LARGEST: u64 = 4_294_967_295;

// A number that was read, and the place after its last digit.
#[derive(Clone, Copy)]
pub struct Number {
    pub value: u32,
    pub next: usize,
}

// The number that starts at a place: all the digits from there up to the first byte that is none, or the end.
pub fn read_number(bytes: &[u8], at: usize) -> Option<Number>
    ensures { result ≡ number_at bytes.now at }
{
    let mut i = at;
    let mut value: u64 = 0;
    // A while: the answer tells where it stops, which a range forgets.
    while i < bytes.len() {
        let byte = bytes[i];
        if byte < ZERO {
            break;
        }
        if byte > NINE {
            break;
        }
        if i - at == MOST_DIGITS {
            return None;
        }
        value = value * 10 + (byte - ZERO) as u64;
        // A further digit never makes a number smaller, so this one stays too large.
        if value > LARGEST {
            return None;
        }
        i += 1;
    }
    if i == at {
        return None;
    }
    Some(Number {
        value: value as u32,
        next: i,
    })
}

// One more byte of a line of which `held` bytes came before. Bytes past the buffer's end are not kept:
// a line is too long for its buffer exactly if this answers more than the buffer's length.
pub fn keep(line: &mut [u8], held: usize, byte: u8) -> usize
    ensures value { result ≡ min (held + 1) (length line.old + 1) }
    ensures line_after { line.new ≡ set line.old held byte }
{
    let room = line.len();
    if held < room {
        line[held] = byte;
        return held + 1;
    }
    room + 1
}
