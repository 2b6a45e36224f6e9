// The entry of an id in the special table (document 01, module 8).
#![tactic(auto)]

ghost use Rattle.std.specs.Prelude.{◌≡◌, get_or};
ghost use Rattle.lookup_ranges.specs.First.{last_from};
ghost use Rattle.template_entries.specs.Table.{no_entry, entries_in};
ghost use Rattle.template_find.specs.Promises.{entry_has_id, entry_answer, IdsInside, EntryAmong};
ghost use Rattle.template_pieces.specs.Piece.{same};

use template_entries::Entry;

// The place of the entry of an id in the table, if there is one: of equal ids the last counts.
pub fn find(entries: &[u32], added: &[u8], id: &[u8]) -> Option<usize>
    requires { IdsInside entries.now added.now }
    ensures { result ≡ entry_answer (last_from (entry_has_id added.now id.now) 0
        (entries_in entries.now)) }
{
    for i in (0..entries.len() / Entry::WIDTH).rev() {
        if has_id(entries, i, added, id) {
            return Some(i);
        }
    }
    None
}

// Whether the entry at a place has this id, byte by byte.
pub fn has_id(entries: &[u32], i: usize, added: &[u8], id: &[u8]) -> bool
    requires { EntryAmong entries.now added.now i }
    ensures { result ≡ entry_has_id added.now id.now
        (get_or (entries_in entries.now) i no_entry) }
{
    let at = i * Entry::WIDTH;
    let start = entries[at + Entry::ID_START] as usize;
    let end = template_entries::end_of(
        entries[at + Entry::ID_START],
        entries[at + Entry::ID_LENGTH],
    );
    same(&added[start..end], id)
}

// Whether two texts have the same bytes.
pub fn same(a: &[u8], b: &[u8]) -> bool
    ensures { result ≡ same a.now b.now }
{
    a == b
}
