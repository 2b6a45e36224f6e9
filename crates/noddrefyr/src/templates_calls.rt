// What C calls of `c_templates`: each function promises what it promises there.
ghost use Rattle.std.specs.Prelude.{◌∷◌, ◌≡◌};
ghost use Rattle.c_crossing.specs.Crossing.{Crosses};
ghost use Rattle.c_templates.specs.Answers.{template_crossed, template_fault};
ghost use Rattle.template_text.specs.Template.{read_template, template_of};

use template_text::Template;

// The pieces of a template text, kind (0 A, 1 B, 2 special), type, id start and id length in the text of each, spare ones zero,
// and their number. Refused with 8, 19, 20, 21; with the last three fault is the number of the part at fault and the place of its
// first byte in the text, both from 0, and else it stays as it was.
#[unsafe(no_mangle)]
pub extern "C" fn noddrefyr_read_template(
    text: &[u8],
    pieces: &mut [u32; Template::PIECES],
    count: &mut usize,
    fault: &mut [usize; 2],
) -> u32
    ensures answer { Crosses
        (template_crossed (count.old ∷ pieces.old) (template_of (read_template text.now))) result
        (count.new ∷ pieces.new) }
    ensures part { fault.new ≡ template_fault fault.old (template_of (read_template text.now)) }
{
    c_templates::noddrefyr_read_template(text, pieces, count, fault)
}
