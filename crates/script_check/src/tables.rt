//! The tables of a check, which have columns and no rows.
ghost use Rattle.std.specs.Prelude.{◌≡◌};
ghost use Rattle.script_says.specs.Catalog.{without_table};
ghost use Rattle.script_check.specs.Tables.{catalog_in};

use ooc_types::Text;
use sql_scope::TableColumns;

/// Takes the first table of a name out of the list, where there is one.
pub(crate) fn drop_table(tables: &mut Vec<TableColumns>, name: &Text)
    ensures { catalog_in tables.new.items ≡ without_table (catalog_in tables.old.items) name.now }
{
    let mut at = 0;
    while at < tables.len() {
        if tables[at].name == *name {
            tables.remove(at);
            return;
        }
        at += 1;
    }
}
