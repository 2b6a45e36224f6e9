// The numbers in a template text: a u32 as Rust reads it (document 01, module 7).
#![tactic(auto)]

ghost use Rattle.std.specs.Prelude.{◌≡◌};
ghost use Rattle.template_numbers.specs.Number.{read_number, number_answer};
ghost use Rattle.template_numbers.specs.Promises.{SignPassed};

const PLUS: u8 = b'+';

const ZERO: u8 = b'0';

const NINE: u8 = b'9';

const LARGEST: u64 = 4_294_967_295;

// The number that a text is: an optional + and one or more digits, of a value that a u32 holds.
pub fn read_number(text: &[u8]) -> Option<u32>
    ensures { result ≡ number_answer (read_number text.now) }
{
    let start = after_sign(text);
    if start == text.len() {
        return None;
    }
    let mut value: u64 = 0;
    for i in start..text.len() {
        let byte = text[i];
        if byte < ZERO {
            return None;
        }
        if byte > NINE {
            return None;
        }
        value = value * 10 + (byte - ZERO) as u64;
        // A further digit never makes a number smaller, so this one stays too large.
        if value > LARGEST {
            return None;
        }
    }
    Some(value as u32)
}

// Where the digits start: after a plus sign, if there is one.
pub fn after_sign(text: &[u8]) -> usize
    ensures { SignPassed text.now result }
{
    if text.len() == 0 {
        return 0;
    }
    if text[0] == PLUS {
        return 1;
    }
    0
}
