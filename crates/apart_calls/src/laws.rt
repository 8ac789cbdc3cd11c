//! Laws of parsed scripts. The functions do nothing; their contracts say the laws.
ghost use Rattle.std.specs.Prelude.{◌≡◌, ℕ, List, Ok};
ghost use Rattle.std.specs.List.{AllByRecursion};
ghost use Rattle.sql_grammar.specs.declared.tree.statement.Script.{Script};
ghost use Rattle.sql_scope.specs.declared.scope.TableColumns.{TableColumns};
ghost use Rattle.sql_scope.specs.Scopes.{columns_of};
ghost use Rattle.bound_tree.specs.declared.statement.Bound.{Bound};
ghost use Rattle.bind_rules.specs.Bound.{bound_of};
ghost use Rattle.well_formed.specs.Statements.{IsWellFormed};
ghost use Rattle.formed_binding.specs.Placed.{StandApart};
ghost use Rattle.formed_binding.specs.Tables.{AreProper};
ghost use Rattle.script_opening.specs.Trees.{IsTreeOf};

use formed_binding::bound_statements_are_well_formed;

/// In each core of a parsed script no two calls of aggregates begin at one token, so that what its statements are bound to is
/// well-formed.
pub fn parsed_statements_stand_apart()
    ensures { (bytes : List ℕ) (script : Script) → IsTreeOf bytes (Ok script) → AllByRecursion StandApart script.statements }
{}

/// What a statement of a parsed script is bound to is well-formed, over tables whose columns have proper types.
pub fn statements_of_scripts_are_well_formed()
    ensures { (bytes : List ℕ) (script : Script) (tables : List TableColumns) (limit : ℕ) → IsTreeOf bytes (Ok script) → AllByRecursion (λ table. AreProper table.columns) tables
        → AllByRecursion (λ statement. (bound : Bound) → bound_of statement bytes tables limit ≡ Ok bound → IsWellFormed limit (columns_of tables) bound) script.statements }
{
    bound_statements_are_well_formed();
}
