//! Laws of bound expressions. The functions do nothing; their contracts say the laws.
ghost use Rattle.std.specs.Prelude.{◌≡◌, ℕ, Bool, List, Option, Ok};
ghost use Rattle.std.specs.List.{AllByRecursion};
ghost use Rattle.ooc_types.specs.declared.schema.SqlType.{SqlType as Kind};
ghost use Rattle.sql_expr.specs.declared.tree.Expr.{Expr as Tree};
ghost use Rattle.sql_expr.specs.Operations.{IsProper};
ghost use Rattle.sql_expr.specs.Values.{HasShortTexts};
ghost use Rattle.sql_grammar.specs.declared.tree.expr.ChainSign.{ChainSign as WrittenSign};
ghost use Rattle.sql_grammar.specs.declared.tree.expr.ColumnName.{ColumnName as WrittenName};
ghost use Rattle.sql_grammar.specs.declared.tree.expr.CompareSign.{CompareSign as WrittenCompare};
ghost use Rattle.sql_grammar.specs.declared.tree.expr.Literal.{Literal as WrittenLiteral};
ghost use Rattle.sql_grammar.specs.declared.tree.expr.Span.{Span as Place};
ghost use Rattle.sql_scope.specs.declared.call.Function.{Function as Aggregating};
ghost use Rattle.sql_scope.specs.declared.chain.Chain.{Chain as BoundChain};
ghost use Rattle.sql_scope.specs.declared.chain.Conditions.{Conditions as BoundConditions};
ghost use Rattle.sql_scope.specs.declared.part.Call.{Call as WrittenCall};
ghost use Rattle.sql_scope.specs.declared.part.Part.{Part as BoundPart};
ghost use Rattle.sql_scope.specs.Calls.{distinct_call, star_call, value_call};
ghost use Rattle.sql_scope.specs.Parts.{begun, between, column, comparison, either, ended, every, joined, like, linked, literal, minus, negation, null_test, one_of, started};
ghost use Rattle.sql_scope.specs.Scopes.{View as Scope, kinds};
ghost use Rattle.typed_scope.specs.Typed.{AreConditionsOver, IsChainOver, IsPartOver, IsTypedOver, seen_of};

/// What an operation makes of typed operands is typed.
pub fn operations_give_typed_parts()
    ensures minus { (columns : List Kind) (calls : List WrittenCall) (limit : ℕ) (view : Scope) (place : ℕ) (of part : BoundPart) → IsPartOver columns calls limit of → minus view place of ≡ Ok part → IsPartOver columns calls limit part }
    ensures negation { (columns : List Kind) (calls : List WrittenCall) (limit : ℕ) (view : Scope) (place : ℕ) (of part : BoundPart) → IsPartOver columns calls limit of → negation view place of ≡ Ok part → IsPartOver columns calls limit part }
    ensures comparison { (columns : List Kind) (calls : List WrittenCall) (limit : ℕ) (view : Scope) (place : ℕ) (sign : WrittenCompare) (left right part : BoundPart) → IsPartOver columns calls limit left → IsPartOver columns calls limit right
        → comparison view place sign left right ≡ Ok part → IsPartOver columns calls limit part }
    ensures null_test { (columns : List Kind) (calls : List WrittenCall) (limit : ℕ) (view : Scope) (negated : Bool) (of part : BoundPart) → IsPartOver columns calls limit of → null_test view negated of ≡ Ok part → IsPartOver columns calls limit part }
    ensures between { (columns : List Kind) (calls : List WrittenCall) (limit : ℕ) (view : Scope) (place : ℕ) (negated : Bool) (of low high part : BoundPart) → IsPartOver columns calls limit of → IsPartOver columns calls limit low → IsPartOver columns calls limit high
        → between view place negated of low high ≡ Ok part → IsPartOver columns calls limit part }
    ensures like { (columns : List Kind) (calls : List WrittenCall) (limit : ℕ) (view : Scope) (place : ℕ) (negated : Bool) (pattern : Place) (of part : BoundPart) → IsPartOver columns calls limit of
        → like view place negated pattern of ≡ Ok part → IsPartOver columns calls limit part }
    ensures one_of { (columns : List Kind) (calls : List WrittenCall) (limit : ℕ) (view : Scope) (place : ℕ) (negated : Bool) (of : BoundPart) (list : List Tree) (part : BoundPart) → IsPartOver columns calls limit of
        → AllByRecursion (IsTypedOver (seen_of columns calls)) list → AllByRecursion (HasShortTexts limit) list → one_of view place negated of list ≡ Ok part → IsPartOver columns calls limit part }
{}

/// A column of a scope, a literal and an aggregate are typed over what the scope sees, where its columns are of proper types.
pub fn names_literals_and_calls_are_typed()
    ensures column { (calls : List WrittenCall) (limit : ℕ) (view : Scope) (written : WrittenName) (part : BoundPart) → AllByRecursion IsProper (kinds view) → column view written ≡ Ok part → IsPartOver (kinds view) calls limit part }
    ensures literal { (columns : List Kind) (calls : List WrittenCall) (view : Scope) (written : WrittenLiteral) (part : BoundPart) → literal view written ≡ Ok part → IsPartOver columns calls view.limit part }
    ensures star_call { (calls : List WrittenCall) (limit : ℕ) (view : Scope) (place : ℕ) (function : Option Aggregating) (part : BoundPart) → star_call view place function ≡ Ok part → IsPartOver (kinds view) calls limit part }
    ensures value_call { (calls : List WrittenCall) (limit : ℕ) (view : Scope) (place : ℕ) (function : Option Aggregating) (of part : BoundPart) → IsPartOver (kinds view) calls limit of → value_call view place function of ≡ Ok part → IsPartOver (kinds view) calls limit part }
    ensures distinct_call { (calls : List WrittenCall) (limit : ℕ) (view : Scope) (place : ℕ) (function : Option Aggregating) (of part : BoundPart) → distinct_call view place function of ≡ Ok part → IsPartOver (kinds view) calls limit part }
{}

/// A chain of typed operands is typed, link by link.
pub fn chains_are_typed()
    ensures begun { (columns : List Kind) (calls : List WrittenCall) (limit : ℕ) (first : BoundPart) → IsPartOver columns calls limit first → IsChainOver columns calls limit (begun first) }
    ensures linked { (columns : List Kind) (calls : List WrittenCall) (limit : ℕ) (place : ℕ) (sign : WrittenSign) (chain : BoundChain) (right : BoundPart) (more : BoundChain) → IsChainOver columns calls limit chain → IsPartOver columns calls limit right
        → linked place sign chain right ≡ Ok more → IsChainOver columns calls limit more }
    ensures ended { (columns : List Kind) (calls : List WrittenCall) (limit : ℕ) (view : Scope) (chain : BoundChain) (part : BoundPart) → IsChainOver columns calls limit chain → ended view chain ≡ Ok part → IsPartOver columns calls limit part }
{}

/// Conditions under AND or OR are typed, operand by operand.
pub fn conditions_are_typed()
    ensures started { (columns : List Kind) (calls : List WrittenCall) (limit : ℕ) (first : BoundPart) → IsPartOver columns calls limit first → AreConditionsOver columns calls limit (started first) }
    ensures joined { (columns : List Kind) (calls : List WrittenCall) (limit : ℕ) (place : ℕ) (conditions : BoundConditions) (right : BoundPart) (more : BoundConditions) → AreConditionsOver columns calls limit conditions → IsPartOver columns calls limit right
        → joined place conditions right ≡ Ok more → AreConditionsOver columns calls limit more }
    ensures every { (columns : List Kind) (calls : List WrittenCall) (limit : ℕ) (view : Scope) (conditions : BoundConditions) (part : BoundPart) → AreConditionsOver columns calls limit conditions → every view conditions ≡ Ok part → IsPartOver columns calls limit part }
    ensures either { (columns : List Kind) (calls : List WrittenCall) (limit : ℕ) (view : Scope) (conditions : BoundConditions) (part : BoundPart) → AreConditionsOver columns calls limit conditions → either view conditions ≡ Ok part → IsPartOver columns calls limit part }
{}
