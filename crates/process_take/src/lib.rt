// One step of a template taken: what it speaks of, joined to the encoding in the output (document 01, module 9).
#![tactic(auto)]

ghost use Rattle.std.specs.Prelude.{◌≡◌};
ghost use Rattle.process_steps.specs.Promises.{EntryThere};
ghost use Rattle.process_take.specs.Promises.{AskTake, TakesStep};
ghost use Rattle.process_take.specs.Operand.{operand_of};

use join_view::View;
use process_steps::Step;
use record::Spot;

// "the pieces are folded without growing"
const GROWING: bool = false;

// What a step joins: an encoding that is stored, where and as what it is seen; or rows of a type, of so many members of the
// special table from the first on.
#[derive(Clone, Copy)]
pub enum Operand {
    Stored(Spot, View),
    Special(u32, usize, usize),
}

// What one step speaks of, joined to the encoding in the output.
pub fn write_step(
    nodes: &[u32],
    rows: &[u32],
    second: Spot,
    entries: &[u32],
    members: &[u32],
    step: Step,
    out_nodes: &mut [u32],
    out_rows: &mut [u32],
    working_nodes: &mut [u32],
    working_rows: &mut [u32],
)
    requires { AskTake nodes.now rows.now second entries.now members.now step
        out_nodes.old out_rows.old working_nodes.old working_rows.old }
    ensures { TakesStep nodes.now rows.now second entries.now members.now
        step out_nodes.old out_rows.old out_nodes.new out_rows.new }
{
    match operand_of(entries, second, step) {
        Operand::Stored(spot, view) => fold_step::fold_step(
            nodes,
            rows,
            spot,
            view,
            GROWING,
            out_nodes,
            out_rows,
            working_nodes,
            working_rows,
        ),
        Operand::Special(type_id, first, count) => process_special::append_special(
            members,
            first,
            count,
            type_id,
            out_nodes,
            out_rows,
            working_rows,
        ),
    }
}

// What a step joins, the second encoding standing at a spot, the entries being those of the special table.
fn operand_of(entries: &[u32], second: Spot, step: Step) -> Operand
    requires { EntryThere entries.now step }
    ensures { result ≡ operand_of entries.now second step }
{
    match step {
        Step::First(type_id) => Operand::Stored(Spot { node: 0, row: 0 }, View::Piece(0, type_id)),
        Step::Second(type_id) => Operand::Stored(second, View::Piece(1, type_id)),
        Step::Special(type_id, entry) => {
            let members = template_entries::members_of(entries, entry as usize);
            Operand::Special(type_id, members.first as usize, members.count as usize)
        }
    }
}
