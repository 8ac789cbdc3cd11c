//! Laws of well-formed statements. The functions do nothing; their contracts say the laws.
ghost use Rattle.std.specs.Prelude.{ℕ};
ghost use Rattle.std.specs.List.{AllByRecursion};
ghost use Rattle.ooc_types.specs.Meets.{AllMeet, Meets};
ghost use Rattle.sql_expr.specs.Values.{IsRanged};
ghost use Rattle.bound_tree.specs.declared.select.BoundSelect.{BoundSelect as Select};
ghost use Rattle.plan_tree.specs.Plannable.{IsPlannable};
ghost use Rattle.sql_meaning.specs.Statements.{Tables, select_meaning};
ghost use Rattle.sql_plan.specs.Numbered.{AreNumbered};
ghost use Rattle.well_formed.specs.Given.{Schemas, kinds_of_select};
ghost use Rattle.well_formed.specs.Rows.{IsWellFormedSelect};
ghost use Rattle.bound_laws.specs.Meeting.{MeetSchemas};

/// A well-formed SELECT over tables that meet their schemas is plannable: its plan means it.
pub fn well_formed_selects_are_plannable()
    ensures { (limit : ℕ) (schemas : Schemas) (tables : Tables) (select : Select) → IsWellFormedSelect limit schemas select → MeetSchemas limit schemas tables → IsPlannable tables select }
{}

/// The columns of each FROM of a well-formed SELECT have numbers of 32 bits, as a plan of it asks.
pub fn well_formed_selects_are_numbered()
    ensures { (limit : ℕ) (schemas : Schemas) (select : Select) → IsWellFormedSelect limit schemas select → AreNumbered select }
{}

/// The rows that a well-formed SELECT means, over tables that meet their schemas, have the types of its output columns:
/// as many values, each NULL or of its type's form, with its texts within the limit, and each number in its type's range.
pub fn rows_have_their_columns_types()
    ensures form { (limit : ℕ) (schemas : Schemas) (tables : Tables) (select : Select) → IsWellFormedSelect limit schemas select → MeetSchemas limit schemas tables
        → AllByRecursion (Meets limit (kinds_of_select select)) (select_meaning tables select).rows }
    ensures range { (limit : ℕ) (schemas : Schemas) (tables : Tables) (select : Select) → IsWellFormedSelect limit schemas select → MeetSchemas limit schemas tables
        → AllByRecursion (AllMeet IsRanged (kinds_of_select select)) (select_meaning tables select).rows }
{}
