// How the second operand of a join is seen (document 01, modules 5 and 9).
#![tactic(auto)]

ghost use Rattle.std.specs.Prelude.{◌≡◌};
ghost use Rattle.join_view.specs.View.{below};

// How the second operand is seen: as it stands; with a sequence's range set to all its rows; or so, and with a type on all
// its rows, its first-level windows with that sequence set too. A template's piece is such a view of an input encoding,
// which stands in no store of its own.
#[derive(Clone, Copy)]
pub enum View {
    Plain,
    Window(usize),
    Piece(usize, u32),
}

// How the windows of the second operand are seen.
pub fn below(view: View) -> View
    ensures { result ≡ below view }
{
    match view {
        View::Plain => View::Plain,
        View::Window(_) => View::Plain,
        View::Piece(sequence, _) => View::Window(sequence),
    }
}
