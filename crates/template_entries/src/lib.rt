// The entries and members of the special table (document 01, module 8): that their numbers lie in order.
#![tactic(auto)]

ghost use Rattle.std.specs.Prelude.{◌≡◌, ◌+◌, ◌/◌, ◌<◌, length, get_or};
ghost use Rattle.record.specs.Read.{all_ok};
ghost use Rattle.template_entries.specs.Table.{no_entry, entry_width, entries_in, members_in, entry_ok, member_ok, agrees};
ghost use Rattle.template_entries.specs.Rows.{members_of};

// The place of each number in an entry.
#[derive(Clone, Copy)]
pub struct Entry {}

impl Entry {
    pub const WIDTH: usize = 5;

    pub const ID_START: usize = 0;

    pub const ID_LENGTH: usize = 1;

    pub const FIRST: usize = 2;

    pub const IDS: usize = 3;

    pub const TEXTS: usize = 4;
}

// The place of each number in a member.
#[derive(Clone, Copy)]
pub struct Member {}

impl Member {
    pub const WIDTH: usize = 3;

    pub const ID: usize = 0;

    pub const TEXT_START: usize = 1;

    pub const TEXT_LENGTH: usize = 2;
}

// The members of an entry: the first of them, and how many.
#[derive(Clone, Copy)]
pub struct Members {
    pub first: u32,
    pub count: u32,
}

// Whether every id lies in a pool of this length, and every entry's members among this many.
pub fn entries_fit(entries: &[u32], members: usize, pool: usize) -> bool
    ensures { result ≡ all_ok (entry_ok members pool) (entries_in entries.now) }
{
    for i in 0..entries.len() / Entry::WIDTH {
        if !entry_fits(entries, i, members, pool) {
            return false;
        }
    }
    true
}

// Whether every member's text lies in a pool of this length.
pub fn members_fit(members: &[u32], pool: usize) -> bool
    ensures { result ≡ all_ok (member_ok pool) (members_in members.now) }
{
    for i in 0..members.len() / Member::WIDTH {
        let at = i * Member::WIDTH;
        let end = end_of(
            members[at + Member::TEXT_START],
            members[at + Member::TEXT_LENGTH],
        );
        if end > pool {
            return false;
        }
    }
    true
}

// Whether every entry has as many ids as texts.
pub fn numbers_agree(entries: &[u32]) -> bool
    ensures { result ≡ all_ok agrees (entries_in entries.now) }
{
    for i in 0..entries.len() / Entry::WIDTH {
        let at = i * Entry::WIDTH;
        if entries[at + Entry::IDS] != entries[at + Entry::TEXTS] {
            return false;
        }
    }
    true
}

// Whether the id of the entry at a place lies in a pool of this length, and its members among this many.
pub fn entry_fits(entries: &[u32], i: usize, members: usize, pool: usize) -> bool
    requires { i < length entries.now / entry_width }
    ensures { result ≡ entry_ok members pool (get_or (entries_in entries.now) i no_entry) }
{
    let at = i * Entry::WIDTH;
    if end_of(
        entries[at + Entry::ID_START],
        entries[at + Entry::ID_LENGTH],
    ) > pool
    {
        return false;
    }
    end_of(entries[at + Entry::FIRST], entries[at + Entry::IDS]) <= members
}

// The members of the entry at a place. A step of a template names its entry, and learns only here what that stands for.
pub fn members_of(entries: &[u32], i: usize) -> Members
    requires { i < length entries.now / entry_width }
    ensures { result ≡ members_of entries.now i }
{
    let at = i * Entry::WIDTH;
    Members {
        first: entries[at + Entry::FIRST],
        count: entries[at + Entry::IDS],
    }
}

// The place after so many, from a place on.
pub fn end_of(start: u32, count: u32) -> usize
    ensures { result ≡ start + count }
{
    start as usize + count as usize
}
