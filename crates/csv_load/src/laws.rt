//! Laws of the definitions. The functions do nothing; their contracts say the laws.
ghost use Rattle.std.specs.Prelude.{◌≡◌, ℕ, true, List, Ok};
ghost use Rattle.ooc_types.specs.Meets.{IsOf};
ghost use Rattle.ooc_types.specs.declared.value.Value.{Value};
ghost use Rattle.csv_load.specs.Values.{are_typed};
ghost use Rattle.csv_load.specs.Rows.{Reading, row_of};

/// The row of a record is a row of a table with its columns.
pub fn rows_are_of_their_columns()
    ensures { (r : Reading) (bytes : List ℕ) (row : List Value) → are_typed r.columns ≡ true → row_of r bytes ≡ Ok row → IsOf r.limit r.columns row }
{}
