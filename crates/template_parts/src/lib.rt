// The parts of a template text, which single spaces part, and the place in it (document 01, module 7).
#![tactic(auto)]

ghost use Rattle.std.specs.Prelude.{◌≡◌, ◌≤◌, length};
ghost use Rattle.template_parts.specs.Parts.{parts, part_step_at};
ghost use Rattle.template_parts.specs.Promises.{FoundFrom};

const SPACE: u8 = b' ';

// A part of a text.
#[derive(Clone, Copy)]
pub struct Part {
    pub start: usize,
    pub length: usize,
}

// The part at a place, unless the text ends there, and the place after it: the same place at the end.
#[derive(Clone, Copy)]
pub struct PartStep {
    pub answer: Option<Part>,
    pub next: usize,
}

// The place of the first such byte from `at` on, or the text's end.
pub fn find(text: &[u8], at: usize, byte: u8) -> usize
    requires { at ≤ length text.now }
    ensures { FoundFrom text.now at byte result }
{
    for i in at..text.len() {
        if text[i] == byte {
            return i;
        }
    }
    text.len()
}

// How many parts a text has: one more than it has spaces.
pub fn count_parts(text: &[u8]) -> usize
    ensures { result ≡ length (parts text.now) }
{
    let mut count: usize = 1;
    for byte in text {
        if *byte == SPACE {
            count += 1;
        }
    }
    count
}

// The part at a place. A text of n bytes has its last place at n; past it there is no part.
pub fn part_at(text: &[u8], at: usize) -> PartStep
    ensures { result ≡ part_step_at text.now at }
{
    if text.len() < at {
        return PartStep {
            answer: None,
            next: at,
        };
    }
    let end = find(text, at, SPACE);
    PartStep {
        answer: Some(Part {
            start: at,
            length: end - at,
        }),
        next: end + 1,
    }
}

// The place in a template text.
#[derive(Clone, Copy)]
pub struct TemplatePlace {
    pub at: usize,
}

// The part at the place, which moves on to the next.
pub fn next_part(text: &[u8], place: &mut TemplatePlace) -> Option<Part>
    ensures { (result ≡ (part_step_at text.now place.old.at).answer)
        × (place.new.at ≡ (part_step_at text.now place.old.at).next) }
{
    let at = place.at;
    let step = part_at(text, at);
    place.at = step.next;
    step.answer
}

// The part at a place and the place after it, by way of the record. Its parameters are plain, so whoever calls it needs no
// proof by hand.
pub fn part_from(text: &[u8], at: usize) -> PartStep
    ensures { result ≡ part_step_at text.now at }
{
    let mut place = TemplatePlace { at };
    let answer = next_part(text, &mut place);
    PartStep {
        answer,
        next: place.at,
    }
}
