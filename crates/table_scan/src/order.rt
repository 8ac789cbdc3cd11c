//! Rows in the order of ORDER BY.
ghost use Rattle.std.specs.Prelude.{◌≡◌, map};
ghost use Rattle.sql_meaning.specs.Ordered.{row_cmp, sorted};
ghost use Rattle.sql_meaning.specs.Statements.{key_of};

use bound_tree::SortKey;
use ooc_types::Row;
use plain_rows::cmp_rows;

/// Puts rows in order: by the keys, and then by all columns ascending. They are moved in place, and no memory is taken.
///
/// Rows that tie are equal, so that there is one such order, and the sort needn't be stable.
pub(crate) fn sort_rows(keys: &[SortKey], rows: &mut Vec<Row>)
    ensures { rows.new.items ≡ sorted (row_cmp (map key_of keys.now)) rows.old.items }
{
    rows.sort_unstable_by(|a, b| cmp_rows(keys, a.as_slice(), b.as_slice()));
}
