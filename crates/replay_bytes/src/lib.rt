// Lists of a case as bytes: the texts that operations are lent, and comparing one with a list.
#![tactic(auto)]

ghost use Rattle.std.specs.Prelude.{◌≡◌};
ghost use Rattle.lists.specs.Lists.{Decides};
ghost use Rattle.replay_bytes.specs.Promises.{PutBytes, BytesAt, TextHeld, TextsHeld};

use replay_cases::Part;

// Whether bytes are the same as the numbers of a list.
pub fn same_bytes(bytes: &[u8], numbers: &[u32]) -> bool
    ensures { Decides result (bytes.now ≡ numbers.now) }
{
    if bytes.len() != numbers.len() {
        return false;
    }
    for (i, byte) in bytes.iter().enumerate() {
        if *byte as u32 != numbers[i] {
            return false;
        }
    }
    true
}

const LARGEST_BYTE: u32 = 255;

// Puts the numbers of a list at the start of `bytes`. A list with more of them than there is room for, or with one that is
// no byte, cannot be put there.
pub fn put_bytes(numbers: &[u32], bytes: &mut [u8]) -> bool
    ensures { PutBytes result numbers.now bytes.new }
{
    if numbers.len() > bytes.len() {
        return false;
    }
    for (i, number) in numbers.iter().enumerate() {
        if *number > LARGEST_BYTE {
            return false;
        }
        bytes[i] = *number as u8;
    }
    true
}

// The list whose length stands at a place, put at the start of `bytes`, if its numbers are bytes and there is room for them.
pub fn bytes_at(case: &[u32], at: usize, bytes: &mut [u8]) -> Part
    ensures { BytesAt case.now at result bytes.new }
{
    let part = replay_cases::list_at(case, at);
    let start = part.start;
    let end = part.end;
    if put_bytes(&case[start..end], bytes) {
        return part;
    }
    replay_cases::no_list(case.len())
}

// A list of a case, put at the start of what is lent for it: how many bytes it has, if it is a text.
pub fn text_of(list: &[u32], bytes: &mut [u8]) -> Option<usize>
    ensures { TextHeld list.now result bytes.new }
{
    if put_bytes(list, bytes) {
        return Some(list.len());
    }
    None
}

// Whether two texts of a case are there, how many bytes they have, and the place after both.
#[derive(Clone, Copy)]
pub struct Texts {
    pub fits: bool,
    pub first: usize,
    pub second: usize,
    pub end: usize,
}

// The two texts at a place, put at the start of what is lent for them. Where there are none, the place after them is the end
// of the case, so that no answer follows.
pub fn texts_at(case: &[u32], at: usize, first: &mut [u8], second: &mut [u8]) -> Texts
    ensures { TextsHeld result first.new second.new }
{
    let first_list = bytes_at(case, at, first);
    let second_list = bytes_at(case, first_list.end, second);
    Texts {
        fits: second_list.fits,
        first: first_list.end - first_list.start,
        second: second_list.end - second_list.start,
        end: second_list.end,
    }
}
