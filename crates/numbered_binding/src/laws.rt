//! A law of bound statements. The function does nothing; its contract says the law.
ghost use Rattle.std.specs.Prelude.{◌≡◌, ℕ, List, Ok};
ghost use Rattle.bound_tree.specs.declared.statement.Bound.{Bound as BoundStatement};
ghost use Rattle.sql_grammar.specs.declared.tree.statement.Statement.{Statement as WrittenStatement};
ghost use Rattle.sql_scope.specs.declared.scope.TableColumns.{TableColumns as Table};
ghost use Rattle.bind_rules.specs.Bound.{bound_of};
ghost use Rattle.numbered_binding.specs.Numbered.{IsNumberedStatement};

/// The columns of each FROM of a bound SELECT have numbers of 32 bits, as a plan of it asks: they are at most 64.
pub fn bound_statements_are_numbered()
    ensures { (statement : WrittenStatement) (script : List ℕ) (tables : List Table) (limit : ℕ) (bound : BoundStatement) → bound_of statement script tables limit ≡ Ok bound → IsNumberedStatement bound }
{}
