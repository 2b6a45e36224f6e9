// How much a join takes, known before it is built, and what it leaves where it is refused with 6.
#![tactic(auto)]

ghost use Rattle.join_size.specs.Promises.{AskSize, SizesFor, AskJoinSize, SizesJoinFor};
ghost use Rattle.record.specs.Working.{Zeroed};

use join_levels::Profile;
use record::Encoding;
use record_room::Size;

// What the encoding takes that was measured.
pub fn size_of(profile: Option<Profile>) -> Size
    requires { AskSize profile }
    ensures { SizesFor profile result }
{
    match profile {
        None => Size {
            fits: false,
            nodes: 0,
            rows: 0,
        },
        Some(p) => Size {
            fits: true,
            nodes: join_levels_stored::nodes_in(p),
            rows: join_levels_stored::rows_in(p),
        },
    }
}

// What the join takes of the encodings that begin the two lists of nodes. Where neither has windows it is one node with
// the rows of both.
pub fn join_size(first_nodes: &[u32], second_nodes: &[u32]) -> Size
    requires { AskJoinSize first_nodes.now second_nodes.now }
    ensures { SizesJoinFor first_nodes.now second_nodes.now result }
{
    if first_nodes[1] == 0 {
        if second_nodes[1] == 0 {
            let rows = first_nodes[0] as usize + second_nodes[0] as usize;
            return Size {
                fits: rows <= Encoding::MOST_ROWS,
                nodes: 1,
                rows,
            };
        }
    }
    let s = join_levels_stored::profile_at(first_nodes, 0);
    let p = join_levels_stored::profile_at(second_nodes, 0);
    size_of(join_levels::joined_profile(s, p))
}

// An output, or a working store, all zeros.
pub fn zero_both(nodes: &mut [u32], rows: &mut [u32])
    ensures { Zeroed nodes.old rows.old nodes.new rows.new }
{
    lists::zero(nodes);
    lists::zero(rows);
}
