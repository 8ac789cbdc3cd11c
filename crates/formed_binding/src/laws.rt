//! Laws of bound statements. The functions do nothing; their contracts say the laws.
ghost use Rattle.std.specs.Prelude.{◌≡◌, ℕ, ◌+◌, ◌≤◌, Bool, true, false, ◌==◌, List, [], ◌∷◌, ◌++◌, map, length, take, Option, Some, Ok, is_some};
ghost use Rattle.std.specs.List.{AllByRecursion};
ghost use Rattle.ooc_types.specs.declared.schema.SqlType.{SqlType as Kind};
ghost use Rattle.ooc_types.specs.declared.schema.SqlType.TheVariants.{Boolean};
ghost use Rattle.sql_expr.specs.declared.tree.Expr.{Expr as Tree};
ghost use Rattle.sql_expr.specs.Kinds.{kind_of};
ghost use Rattle.sql_expr.specs.Typing.{IsTyped};
ghost use Rattle.sql_expr.specs.Values.{HasShortTexts};
ghost use Rattle.bound_tree.specs.declared.kinds.JoinKind.{JoinKind as Joining};
ghost use Rattle.bound_tree.specs.declared.select.BoundSelect.{BoundSelect as Select};
ghost use Rattle.bound_tree.specs.declared.statement.Bound.{Bound as BoundStatement};
ghost use Rattle.sql_grammar.specs.declared.tree.expr.ChainSign.{ChainSign as WrittenSign};
ghost use Rattle.sql_grammar.specs.declared.tree.expr.ColumnName.{ColumnName as WrittenName};
ghost use Rattle.sql_grammar.specs.declared.tree.expr.CompareSign.{CompareSign as WrittenCompare};
ghost use Rattle.sql_grammar.specs.declared.tree.expr.Constant.{Constant as WrittenConstant};
ghost use Rattle.sql_grammar.specs.declared.tree.expr.Literal.{Literal as WrittenLiteral};
ghost use Rattle.sql_grammar.specs.declared.tree.expr.Span.{Span as Place};
ghost use Rattle.sql_grammar.specs.declared.tree.select.Key.{Key as WrittenKey};
ghost use Rattle.sql_grammar.specs.declared.tree.select.SetKind.{SetKind as WrittenKind};
ghost use Rattle.sql_grammar.specs.declared.tree.statement.Column.{Column as WrittenColumn};
ghost use Rattle.sql_grammar.specs.declared.tree.statement.CopyOption.{CopyOption as WrittenOption};
ghost use Rattle.sql_grammar.specs.declared.tree.statement.Statement.{Statement as WrittenStatement};
ghost use Rattle.bind_rules.specs.Bound.{bound_of};
ghost use Rattle.sql_scope.specs.declared.scope.TableColumns.{TableColumns as Table};
ghost use Rattle.sql_scope.specs.declared.call.Function.{Function as Aggregating};
ghost use Rattle.sql_scope.specs.declared.chain.Chain.{Chain as BoundChain};
ghost use Rattle.sql_scope.specs.declared.chain.Conditions.{Conditions as BoundConditions};
ghost use Rattle.sql_scope.specs.declared.part.Call.{Call as WrittenCall};
ghost use Rattle.sql_scope.specs.declared.part.Part.{Part as BoundPart};
ghost use Rattle.sql_scope.specs.Answer.{Answer};
ghost use Rattle.sql_scope.specs.Calls.{distinct_call, star_call, value_call};
ghost use Rattle.sql_scope.specs.Parts.{begun, between, column, comparison, either, ended, every, joined, like, linked, literal, minus, negation, null_test, one_of, started};
ghost use Rattle.sql_scope.specs.Scopes.{View as Scope, columns_of, kinds, without_aggregates};
ghost use Rattle.sql_scope.specs.Trees.{constants_from};
ghost use Rattle.sql_clauses.specs.declared.cores.NamedRows.{NamedRows as Named};
ghost use Rattle.sql_clauses.specs.declared.rows.Unordered.{Unordered as Rows};
ghost use Rattle.sql_clauses.specs.declared.joins.Joined.{Joined as JoinedSources};
ghost use Rattle.sql_clauses.specs.declared.sources.Sources.{Sources};
ghost use Rattle.sql_clauses.specs.Aggregates.{are_unmixed, gathered};
ghost use Rattle.sql_clauses.specs.declared.conditions.Filter.{Filter as WhereFilter};
ghost use Rattle.sql_clauses.specs.declared.conditions.FilterOperand.{FilterOperand as WhereOperand};
ghost use Rattle.sql_clauses.specs.Conditions.{conjuncts, plain_operand};
ghost use Rattle.sql_clauses.specs.Conditions as clauses;
ghost use Rattle.sql_clauses.specs.Membership.{member};
ghost use Rattle.sql_clauses.specs.Copies.{copy_table};
ghost use Rattle.sql_clauses.specs.Grouping.{group_place, over_group};
ghost use Rattle.sql_clauses.specs.declared.cores.Core.{Core as Clauses};
ghost use Rattle.sql_clauses.specs.declared.rows.Unordered.TheVariants.{Core as CoreOf};
ghost use Rattle.sql_clauses.specs.declared.cores.Selected.{Selected as Shown};
ghost use Rattle.sql_clauses.specs.declared.items.Outputs.{Outputs as Items};
ghost use Rattle.sql_clauses.specs.Cores.{unmixed, with_having, without_having};
ghost use Rattle.sql_clauses.specs.Items.{no_outputs, source_item, star_item, value_item};
ghost use Rattle.sql_clauses.specs.Joins.{join_on, join_plainly, on_width};
ghost use Rattle.sql_clauses.specs.Rows.{combined, select_of};
ghost use Rattle.sql_clauses.specs.Sources.{all_sources, query_source, table_source};
ghost use Rattle.sql_clauses.specs.Tables.{create_table, drop_table};
ghost use Rattle.typed_scope.specs.Typed.{IsTypedOver, seen_of};
ghost use Rattle.well_formed.specs.Aggregates.{AreDifferent, IsAggregate, StandsAlone};
ghost use Rattle.well_formed.specs.Exprs.{IsCondition, IsExpr};
ghost use Rattle.well_formed.specs.From.{MayHave};
ghost use Rattle.well_formed.specs.Given.{Schemas};
ghost use Rattle.well_formed.specs.Statements.{IsWellFormed};
ghost use Rattle.formed_binding.specs.Answers.{OfAnswer};
ghost use Rattle.formed_binding.specs.Cores.{HasClauses};
ghost use Rattle.formed_binding.specs.Covered.{Covered};
ghost use Rattle.formed_binding.specs.Filters.{AreConjuncts, IsFilter, IsOperand};
ghost use Rattle.formed_binding.specs.Items.{AreOutputs, AreShown};
ghost use Rattle.formed_binding.specs.Named.{AreNamed, AreUnordered, IsSelected};
ghost use Rattle.formed_binding.specs.Parts.{AreConditions, AreListed, IsChain, IsPart, IsView, calls_at, one_if};
ghost use Rattle.formed_binding.specs.Placed.{StandApart};
ghost use Rattle.formed_binding.specs.Sources.{AreAll, AreJoinedAs, AreSources};
ghost use Rattle.formed_binding.specs.Tables.{AreProper};

/// What CREATE TABLE, DROP TABLE and COPY are bound to is well-formed over the tables that are there.
pub fn bound_tables_are_well_formed()
    ensures create { (limit : ℕ) (view : Scope) (name : Place) (columns : List WrittenColumn) (bound : BoundStatement)
        → create_table view name columns ≡ Ok bound → IsWellFormed limit (columns_of view.tables) bound }
    ensures drop { (limit : ℕ) (view : Scope) (name : Place) (bound : BoundStatement)
        → drop_table view name ≡ Ok bound → IsWellFormed limit (columns_of view.tables) bound }
    ensures copy { (limit : ℕ) (view : Scope) (name file : Place) (options : List WrittenOption) (bound : BoundStatement)
        → copy_table view name file options ≡ Ok bound → IsWellFormed limit (columns_of view.tables) bound }
{}

/// A set operation over well-formed rows is well-formed: its columns have the common types of the operands' columns.
pub fn set_operations_keep_rows_well_formed()
    ensures { (limit : ℕ) (schemas : Schemas) (kind : WrittenKind) (all : Bool) (place : ℕ) (left right rows : Named)
        → AreNamed limit schemas left → AreNamed limit schemas right → combined kind all place left right ≡ Ok rows → AreNamed limit schemas rows }
{}

/// A SELECT over well-formed rows is well-formed: its keys are output columns, its numbers are those of tokens.
pub fn ordered_rows_are_well_formed()
    ensures { (limit : ℕ) (schemas : Schemas) (view : Scope) (order : List WrittenKey) (most from : Option Place) (rows : Rows)
        → AreUnordered limit schemas rows → OfAnswer (IsSelected limit schemas) (select_of view order most from rows) }
{}

/// What keys cover is typed over the row of a group, which has the keys and then the different aggregates, where no two calls
/// stand at one place: each key is its column, and each call is the column of its aggregate. Types and texts stay.
pub fn covered_trees_are_typed_over_groups()
    ensures kind { (keys : List Tree) (place_of : ℕ → ℕ) (e : Tree) → kind_of (over_group keys place_of e) ≡ kind_of e }
    ensures texts { (keys : List Tree) (place_of : ℕ → ℕ) (limit : ℕ) (e : Tree) → HasShortTexts limit e → HasShortTexts limit (over_group keys place_of e) }
    ensures typed { (limit : ℕ) (columns : List Kind) (keys : List Tree) (calls : List WrittenCall) (e : Tree)
        → AllByRecursion (λ call. IsAggregate limit columns call.aggregate) calls → ((place : ℕ) → calls_at calls place ≤ 1)
        → Covered keys (length columns) e → IsTypedOver (seen_of columns calls) e
        → IsTyped (map kind_of keys ++ map (λ aggregate. aggregate.result) (gathered calls).aggregates)
        (over_group keys (group_place (length keys) (length columns) (gathered calls).calls) e) }
{}

/// The aggregates of a core are each other's equals nowhere, are those that were written, and a `count(DISTINCT x)` stands
/// beside none.
pub fn gathered_aggregates_are_well_formed()
    ensures different { (calls : List WrittenCall) → AreDifferent (gathered calls).aggregates }
    ensures formed { (limit : ℕ) (columns : List Kind) (calls : List WrittenCall) → AllByRecursion (λ call. IsAggregate limit columns call.aggregate) calls
        → AllByRecursion (IsAggregate limit columns) (gathered calls).aggregates }
    ensures alone { (calls : List WrittenCall) → are_unmixed calls ≡ true → AllByRecursion (StandsAlone (gathered calls).aggregates) (gathered calls).aggregates }
{}

/// What a literal, a column and an aggregate are bound to.
pub fn leaves_are_parts()
    ensures literal { (view : Scope) (written : WrittenLiteral) → OfAnswer (IsPart view false (λ place. 0)) (literal view written) }
    ensures column { (view : Scope) (written : WrittenName) → IsView view → OfAnswer (IsPart view false (λ place. 0)) (column view written) }
    ensures star { (view : Scope) (flag : Bool) (n : ℕ → ℕ) (place : ℕ) (function : Option Aggregating) → ((at : ℕ) → one_if (place == at) ≤ n at)
        → (is_some function ≡ true → flag ≡ true) → OfAnswer (IsPart view flag n) (star_call view place function) }
    ensures value { (view : Scope) (flag other : Bool) (n m : ℕ → ℕ) (place : ℕ) (function : Aggregating) (of : BoundPart) → IsPart (without_aggregates view) other m of
        → ((at : ℕ) → one_if (place == at) ≤ n at) → flag ≡ true → OfAnswer (IsPart view flag n) (value_call view place (Some function) of) }
    ensures distinct { (view : Scope) (flag other : Bool) (n m : ℕ → ℕ) (place : ℕ) (function : Aggregating) (of : BoundPart) → IsPart (without_aggregates view) other m of
        → ((at : ℕ) → one_if (place == at) ≤ n at) → flag ≡ true → OfAnswer (IsPart view flag n) (distinct_call view place (Some function) of) }
    ensures constants { (view : Scope) (bound : Answer (List Tree)) (list : List WrittenConstant) → OfAnswer (AreListed view) bound → OfAnswer (AreListed view) (constants_from view bound list) }
{}

/// What an operation makes of its operands.
pub fn operations_give_parts()
    ensures minus { (view : Scope) (flag : Bool) (n : ℕ → ℕ) (place : ℕ) (of : BoundPart) → IsPart view flag n of → OfAnswer (IsPart view flag n) (minus view place of) }
    ensures negation { (view : Scope) (flag : Bool) (n : ℕ → ℕ) (place : ℕ) (of : BoundPart) → IsPart view flag n of → OfAnswer (IsPart view flag n) (negation view place of) }
    ensures null_test { (view : Scope) (flag : Bool) (n : ℕ → ℕ) (negated : Bool) (of : BoundPart) → IsPart view flag n of → OfAnswer (IsPart view flag n) (null_test view negated of) }
    ensures like { (view : Scope) (flag : Bool) (n : ℕ → ℕ) (place : ℕ) (negated : Bool) (pattern : Place) (of : BoundPart) → IsPart view flag n of
        → OfAnswer (IsPart view flag n) (like view place negated pattern of) }
    ensures one_of { (view : Scope) (flag : Bool) (n : ℕ → ℕ) (place : ℕ) (negated : Bool) (of : BoundPart) (list : List Tree) → IsPart view flag n of → AreListed view list
        → OfAnswer (IsPart view flag n) (one_of view place negated of list) }
    ensures comparison { (view : Scope) (flag f g : Bool) (n m k : ℕ → ℕ) (place : ℕ) (sign : WrittenCompare) (l r : BoundPart) → IsPart view f m l → IsPart view g k r
        → (f ≡ true → flag ≡ true) → (g ≡ true → flag ≡ true) → ((place : ℕ) → m place + k place ≤ n place) → OfAnswer (IsPart view flag n) (comparison view place sign l r) }
    ensures between { (view : Scope) (flag f g d : Bool) (n m k j : ℕ → ℕ) (place : ℕ) (negated : Bool) (of low high : BoundPart) → IsPart view f m of → IsPart view g k low → IsPart view d j high
        → (f ≡ true → flag ≡ true) → (g ≡ true → flag ≡ true) → (d ≡ true → flag ≡ true) → ((place : ℕ) → m place + (k place + j place) ≤ n place)
        → OfAnswer (IsPart view flag n) (between view place negated of low high) }
{}

/// What chains, AND and OR make of their operands, one after another.
pub fn chains_and_conditions_give_parts()
    ensures begun { (view : Scope) (flag : Bool) (n : ℕ → ℕ) (first : BoundPart) → IsPart view flag n first → IsChain view flag n (begun first) }
    ensures linked { (view : Scope) (flag f g : Bool) (n m k : ℕ → ℕ) (place : ℕ) (sign : WrittenSign) (chain : BoundChain) (right : BoundPart) → IsChain view f m chain → IsPart view g k right
        → (f ≡ true → flag ≡ true) → (g ≡ true → flag ≡ true) → ((place : ℕ) → m place + k place ≤ n place) → OfAnswer (IsChain view flag n) (linked place sign chain right) }
    ensures ended { (view : Scope) (flag : Bool) (n : ℕ → ℕ) (chain : BoundChain) → IsChain view flag n chain → OfAnswer (IsPart view flag n) (ended view chain) }
    ensures started { (view : Scope) (flag : Bool) (n : ℕ → ℕ) (first : BoundPart) → IsPart view flag n first → AreConditions view flag n (started first) }
    ensures joined { (view : Scope) (flag f g : Bool) (n m k : ℕ → ℕ) (place : ℕ) (conditions : BoundConditions) (right : BoundPart) → AreConditions view f m conditions → IsPart view g k right
        → (f ≡ true → flag ≡ true) → (g ≡ true → flag ≡ true) → ((place : ℕ) → m place + k place ≤ n place) → OfAnswer (AreConditions view flag n) (joined place conditions right) }
    ensures every { (view : Scope) (flag : Bool) (n : ℕ → ℕ) (conditions : BoundConditions) → AreConditions view flag n conditions → OfAnswer (IsPart view flag n) (every view conditions) }
    ensures either { (view : Scope) (flag : Bool) (n : ℕ → ℕ) (conditions : BoundConditions) → AreConditions view flag n conditions → OfAnswer (IsPart view flag n) (either view conditions) }
{}

/// A table or a subquery behind the sources before it.
pub fn sources_are_well_formed()
    ensures table { (view : Scope) (join : Joining) (name : Place) (alias : Option Place) (sources : Sources) (joins : List Joining) → AllByRecursion (λ table. AreProper table.columns) view.tables
        → AreSources view sources joins → OfAnswer (λ all. AreSources view all (joins ++ join ∷ [])) (table_source view join name alias sources) }
    ensures query { (view : Scope) (join : Joining) (place : ℕ) (alias : Place) (sources : Sources) (joins : List Joining) (query : Select) → IsSelected view.limit (columns_of view.tables) query
        → AreSources view sources joins → OfAnswer (λ all. AreSources view all (joins ++ join ∷ [])) (query_source view join place alias sources query) }
    ensures few { (view : Scope) (place : ℕ) (sources : Sources) (joins : List Joining) → AreSources view sources joins → OfAnswer (λ all. AreAll view all joins) (all_sources place sources) }
{}

/// The next source with its ON: conditions over the columns up to it, and none for the first source and behind CROSS JOIN.
pub fn joins_are_well_formed()
    ensures plainly { (view : Scope) (names : List (List ℕ)) (all : List Joining) (kind : Joining) (left : List Joining) (joined : JoinedSources) → MayHave kind []
        → AreJoinedAs view names all (kind ∷ left) joined → OfAnswer (AreJoinedAs view names all left) (join_plainly joined) }
    ensures on { (view : Scope) (names : List (List ℕ)) (all : List Joining) (kind : Joining) (left : List Joining) (place : ℕ) (joined : JoinedSources) (part : BoundPart) → ((on : List Tree) → MayHave kind on)
        → AreJoinedAs view names all (kind ∷ left) joined → IsExpr view.limit (take (on_width joined) (kinds view)) part.tree → OfAnswer (AreJoinedAs view names all left) (join_on place joined part) }
    ensures conjuncts { (limit : ℕ) (columns : List Kind) (e : Tree) → IsExpr limit columns e → kind_of e ≡ Boolean → AllByRecursion (IsCondition limit columns) (conjuncts e) }
{}

/// WHERE, operand by operand of its outermost AND: conditions, and IN with a subquery of one column that compares.
pub fn operands_of_where_are_well_formed()
    ensures plain { (limit : ℕ) (schemas : Schemas) (columns : List Kind) (part : BoundPart) → IsExpr limit columns part.tree → OfAnswer (IsOperand limit schemas columns) (plain_operand part) }
    ensures member { (limit : ℕ) (schemas : Schemas) (columns : List Kind) (place at : ℕ) (negated : Bool) (of : BoundPart) (query : Select) → IsExpr limit columns of.tree → IsSelected limit schemas query
        → OfAnswer (IsOperand limit schemas columns) (member place at negated of query) }
    ensures begun { (limit : ℕ) (schemas : Schemas) (columns : List Kind) (operand : WhereOperand) → IsOperand limit schemas columns operand → OfAnswer (IsFilter limit schemas columns) (clauses.begun operand) }
    ensures joined { (limit : ℕ) (schemas : Schemas) (columns : List Kind) (place : ℕ) (filter : WhereFilter) (operand : WhereOperand) → IsFilter limit schemas columns filter → IsOperand limit schemas columns operand
        → OfAnswer (IsFilter limit schemas columns) (clauses.joined place filter operand) }
    ensures ended { (limit : ℕ) (schemas : Schemas) (columns : List Kind) (place : ℕ) (filter : WhereFilter) → IsFilter limit schemas columns filter → OfAnswer (AreConjuncts limit schemas columns) (clauses.ended place filter) }
{}

/// An item behind those before it, and `*`: typed with the columns' types, and covered where the core is grouped.
pub fn items_are_well_formed()
    ensures none { (view : Scope) (grouped : Bool) (n : ℕ → ℕ) → AreOutputs view grouped n no_outputs }
    ensures value { (view : Scope) (grouped g : Bool) (n m k : ℕ → ℕ) (alias : Option Place) (outputs : Items) (part : BoundPart) → AreOutputs view grouped m outputs → IsPart view g k part
        → (g ≡ true → grouped ≡ true) → ((place : ℕ) → m place + k place ≤ n place) → OfAnswer (AreOutputs view grouped n) (value_item view grouped alias outputs part) }
    ensures star { (view : Scope) (grouped : Bool) (n : ℕ → ℕ) (place : ℕ) → IsView view → (outputs : Items) → AreOutputs view grouped n outputs → OfAnswer (AreOutputs view grouped n) (star_item view grouped place outputs) }
    ensures source { (view : Scope) (grouped : Bool) (n : ℕ → ℕ) (source : Place) (outputs : Items) → IsView view → AreOutputs view grouped n outputs → OfAnswer (AreOutputs view grouped n) (source_item view grouped source outputs) }
{}

/// HAVING behind the items of a grouped core: a condition that the keys cover. `count(DISTINCT x)` stands alone.
pub fn having_is_well_formed()
    ensures having { (view : Scope) (grouped g : Bool) (n m k : ℕ → ℕ) (place : ℕ) (outputs : Items) (part : BoundPart) → grouped ≡ true → AreOutputs view grouped m outputs → IsPart view g k part
        → ((place : ℕ) → m place + k place ≤ n place) → OfAnswer (AreShown view grouped n) (with_having place outputs part) }
    ensures none { (view : Scope) (grouped : Bool) (n : ℕ → ℕ) (outputs : Items) → AreOutputs view grouped n outputs → OfAnswer (AreShown view grouped n) (without_having outputs) }
    ensures unmixed { (view : Scope) (grouped : Bool) (n : ℕ → ℕ) (selected : Shown) → AreShown view grouped n selected → OfAnswer (AreShown view grouped n) (unmixed selected) }
    ensures alone { (view : Scope) (grouped : Bool) (n : ℕ → ℕ) (selected : Shown) → AreShown view grouped n selected → OfAnswer (λ shown. are_unmixed shown.outputs.calls ≡ true) (unmixed selected) }
{}

/// A core whose clauses are well-formed, and whose calls stand at different places, has well-formed rows with the types of
/// its columns.
pub fn cores_are_well_formed()
    ensures { (view : Scope) (core : Clauses) → HasClauses view core → AreUnordered view.limit (columns_of view.tables) (CoreOf core) }
{}

/// What a statement over well-formed tables is bound to is well-formed, where no two calls of a core begin at one token.
pub fn bound_statements_are_well_formed()
    ensures { (statement : WrittenStatement) (script : List ℕ) (tables : List Table) (limit : ℕ) (bound : BoundStatement) → StandApart statement → AllByRecursion (λ table. AreProper table.columns) tables
        → bound_of statement script tables limit ≡ Ok bound → IsWellFormed limit (columns_of tables) bound }
{}
