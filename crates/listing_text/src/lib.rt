// Texts and decimal numbers, put as bytes into an output: for what programs print.
#![tactic(auto)]

ghost use Rattle.std.specs.Prelude.{[], ◌∷◌, ◌++◌, ◌≡◌, ◌+◌, ◌≤◌, ◌<◌, length};
ghost use Rattle.lines.specs.Decimal.{zero_byte};
ghost use Rattle.listing_text.specs.Promises.{WroteText};
ghost use Rattle.listing_text.specs.Text.{number_text, long_text};

const ZERO: u8 = b'0';

// A text, and the place after it.
pub fn write_text(text: &[u8], out: &mut [u8], at: usize) -> usize
    requires { at + length text.now ≤ length out.old }
    ensures { WroteText text.now out.old at result out.new }
{
    let end = at + text.len();
    out[at..end].copy_from_slice(text);
    end
}

// The digits of a number, and the place after them: those of its tenth part, if it has more than one, and the last.
pub fn write_number(value: u64, out: &mut [u8], at: usize) -> usize
    requires { at + length (long_text value) ≤ length out.old }
    ensures { WroteText (long_text value) out.old at result out.new }
{
    if value > 9 {
        let last = write_number(value / 10, out, at);
        return write_byte(digit(value % 10), out, last);
    }
    write_byte(digit(value), out, at)
}

fn digit(value: u64) -> u8
    requires { value < 10 }
    ensures { result ≡ zero_byte + value }
{
    ZERO + value as u8
}

// One byte, and the place after it.
pub fn write_byte(byte: u8, out: &mut [u8], at: usize) -> usize
    requires { at < length out.old }
    ensures { WroteText (byte ∷ []) out.old at result out.new }
{
    out[at] = byte;
    at + 1
}

// A number and one byte.
pub fn write_field(value: u32, byte: u8, out: &mut [u8], at: usize) -> usize
    requires { at + length (number_text value) + 1 ≤ length out.old }
    ensures { WroteText (number_text value ++ (byte ∷ [])) out.old at result out.new }
{
    let next = write_number(value as u64, out, at);
    write_byte(byte, out, next)
}
