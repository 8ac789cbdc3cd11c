//! The types of a set's columns, and the cells that their values are kept in.
ghost use Rattle.std.specs.Prelude.{◌≡◌, ◌≤◌, length, take};
ghost use Rattle.row_image.specs.declared.limits.TheConstants.{MOST_COLUMNS};
ghost use Rattle.row_sets.specs.SetRows.{cell_kind, cell_kinds};

use ooc_types::SqlType;
use row_image::{CellKind, Layout, MOST_COLUMNS};
use std::marker::Model;

/// The types of at most 65 columns. Contracts see the list.
#[derive(Drop)]
pub struct Kinds {
    kinds: [SqlType; 65],
    count: usize,
}

impl Model for Kinds {
    ghost use Rattle.std.specs.Prelude.{List, ◌≡◌, ◌≤◌, length, take};
    ghost use Rattle.ooc_types.specs.declared.schema.SqlType.{SqlType};

    ghost Value = { List SqlType };

    ghost view = { λ k. take k.count k.kinds };

    ghost invariant = { λ k. k.count ≤ 65 };
}

impl Kinds {
    /// The types of a list.
    pub fn new_kinds(kinds: &[SqlType]) -> Kinds
        requires { length kinds.now ≤ MOST_COLUMNS }
        ensures { result ≡ kinds.now }
    {
        let mut all = [SqlType::Boolean; 65];
        put_types(&mut all, kinds);
        Kinds {
            kinds: all,
            count: kinds.len(),
        }
    }

    pub fn as_slice(&self) -> &[SqlType]
        ensures { result.now ≡ self.now }
    {
        &self.kinds[..self.count]
    }
}

// Puts types at the front of a list.
fn put_types(room: &mut [SqlType], kinds: &[SqlType])
    requires { length kinds.now ≤ length room.old }
    ensures { take (length kinds.now) room.new ≡ kinds.now }
{
    room[..kinds.len()].copy_from_slice(kinds);
}

/// The cells that values of these types are kept in.
pub fn layout_of(kinds: &[SqlType]) -> Layout
    requires some { 1 ≤ length kinds.now }
    requires few { length kinds.now ≤ MOST_COLUMNS }
    ensures { result ≡ cell_kinds kinds.now }
{
    let mut cells = [CellKind::Bit; 65];
    let cells = &mut cells[..kinds.len()];
    fill_kinds(kinds, cells);
    Layout::new_layout(cells)
}

// The kinds of cells of a list of types.
fn fill_kinds(kinds: &[SqlType], into: &mut [CellKind])
    requires { length into.old ≡ length kinds.now }
    ensures { into.new ≡ cell_kinds kinds.now }
{
    for column in 0..kinds.len() {
        into[column] = cell_kind(kinds[column]);
    }
}

// The cell that a type's values are kept in.
fn cell_kind(kind: SqlType) -> CellKind
    ensures { result ≡ cell_kind kind }
{
    match kind {
        SqlType::Boolean => CellKind::Bit,
        SqlType::Integer | SqlType::Date => CellKind::Four,
        SqlType::BigInt => CellKind::Eight,
        SqlType::HugeInt => CellKind::Sixteen,
        SqlType::Decimal { width, .. } => {
            if width <= 18 {
                CellKind::Eight
            } else {
                CellKind::Sixteen
            }
        }
        SqlType::Varchar => CellKind::Text,
    }
}
