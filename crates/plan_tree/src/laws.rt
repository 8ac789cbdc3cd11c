//! Laws of plans. The functions do nothing; their contracts say the laws.
ghost use Rattle.std.specs.Prelude.{◌≡◌, ℕ};
ghost use Rattle.std.specs.List.{AllByRecursion};
ghost use Rattle.sql_expr.specs.declared.tree.Expr.{Expr as Tree};
ghost use Rattle.sql_expr.specs.Meaning.{value_of};
ghost use Rattle.sql_meaning.specs.Found.{Row};
ghost use Rattle.sql_meaning.specs.Ordered.{value_at};
ghost use Rattle.plan_tree.specs.Columns.{columns_of};
ghost use Rattle.bound_tree.specs.declared.select.BoundSelect.{BoundSelect as Select};
ghost use Rattle.bound_tree.specs.declared.select.BoundRows.TheViews.{out-BoundSelect};
ghost use Rattle.sql_meaning.specs.Same.{Agrees};
ghost use Rattle.sql_meaning.specs.Statements.{Tables, cut_of, select_meaning};
ghost use Rattle.plan_tree.specs.Means.{plan_meaning};
ghost use Rattle.plan_tree.specs.Plannable.{IsPlannable};
ghost use Rattle.plan_tree.specs.Planned.{Counts, plan_of_select};

/// The plan of a SELECT means the SELECT, whatever its tables hold and however many rows they are said to have: it gives
/// the same bag of rows and the same faults, and under ORDER BY, LIMIT or OFFSET the same list.
pub fn plans_mean_the_select()
    ensures { (tables : Tables) (counts : Counts) (select : Select) → IsPlannable tables select
        → Agrees (cut_of (out-BoundSelect select).cut) (plan_meaning tables (plan_of_select counts select)) (select_meaning tables select) }
{}

/// The value of an expression depends on the columns that it names alone.
pub fn columns_alone_matter()
    ensures { (row other : Row) (expr : Tree) → AllByRecursion (λ place. value_at place row ≡ value_at place other) (columns_of expr) → value_of row expr ≡ value_of other expr }
{}
