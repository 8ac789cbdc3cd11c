//! Where a table stands.
ghost use Rattle.std.specs.Prelude.{◌≡◌, ◌<◌, ◌++◌, ◌∷◌, [], false, MatchOption, vec_len, vec_capacity};
ghost use Rattle.paged_catalog.specs.Finding.{has_table, IsFirst};

use sql_scope::TableColumns;

/// The place of the first table of that name.
pub fn place_of(tables: &[TableColumns], name: &[u8]) -> Option<usize>
    ensures { MatchOption result (has_table tables.now name.now ≡ false) (IsFirst tables.now name.now) }
{
    for (place, table) in tables.iter().enumerate() {
        if table.name.as_bytes() == name {
            return Some(place);
        }
    }
    None
}

/// Adds an item where there is room for it.
pub fn put<T>(list: &mut Vec<T>, item: T)
    requires { vec_len list.old < vec_capacity list.old }
    ensures { list.new.items ≡ list.old.items ++ item ∷ [] }
{
    match list.push(item) {
        Ok(()) => (),
        Err(_other) => unreachable!(),
    }
}
