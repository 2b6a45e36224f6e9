// A step by which a template is applied, in numbers (document 01, module 9).
#![tactic(auto)]

ghost use Rattle.std.specs.Prelude.{◌≡◌, ◌+◌, ◌*◌, ◌≤◌, length};
ghost use Rattle.std.proofs.lemmas.List.Edits.{sets};
ghost use Rattle.template_text.specs.Template.{piece_width};
ghost use Rattle.process_steps.specs.Steps.{step_numbers, step_at};

use template_pieces::Kind;
use template_text::Template;

// The first encoding or the second, with a type; or special rows of a type: the number of their entry in the special table.
#[derive(Clone, Copy)]
pub enum Step {
    First(u32),
    Second(u32),
    Special(u32, u32),
}

// The step at a place.
pub fn step_at(steps: &[u32], i: usize) -> Step
    requires { i * piece_width + piece_width ≤ length steps.now }
    ensures { result ≡ step_at steps.now (i * piece_width) }
{
    let at = i * Template::PIECE_WIDTH;
    let kind = steps[at];
    if kind == Kind::A {
        return Step::First(steps[at + 1]);
    }
    if kind == Kind::B {
        return Step::Second(steps[at + 1]);
    }
    Step::Special(steps[at + 1], steps[at + 2])
}

// The step at a place, written.
pub fn write_step(steps: &mut [u32], i: usize, step: Step)
    requires { i * piece_width + piece_width ≤ length steps.old }
    ensures { steps.new ≡ sets steps.old (i * piece_width) (step_numbers step) }
{
    let numbers = numbers_of(step);
    lists::copy(
        &numbers,
        0,
        Template::PIECE_WIDTH,
        steps,
        i * Template::PIECE_WIDTH,
    );
}

fn numbers_of(step: Step) -> [u32; Template::PIECE_WIDTH]
    ensures { result ≡ step_numbers step }
{
    match step {
        Step::First(type_id) => [Kind::A, type_id, 0, 0],
        Step::Second(type_id) => [Kind::B, type_id, 0, 0],
        Step::Special(type_id, entry) => [Kind::SPECIAL, type_id, entry, 0],
    }
}
