//! Laws of the definitions. The functions do nothing; their contracts say the laws.
ghost use Rattle.std.specs.Prelude.{◌≡◌, ◌≢◌, ℕ, List, [], map, Ok, IsTrue, true, false};
ghost use Rattle.ooc_types.specs.declared.value.Value.{Value as SqlValue};
ghost use Rattle.ooc_types.specs.declared.value.Value.TheVariants.{Truth as of_truth};
ghost use Rattle.ooc_types.specs.declared.schema.SqlType.{SqlType as Kind};
ghost use Rattle.ooc_types.specs.Meets.{Meets, AllMeet, HasForm};
ghost use Rattle.sql_expr.specs.declared.tree.Expr.{Expr as Tree};
ghost use Rattle.sql_expr.specs.declared.tree.CompareSign.TheVariants.{Equal, AtLeast, AtMost};
ghost use Rattle.sql_expr.specs.Arithmetic.{Meaning};
ghost use Rattle.sql_expr.specs.Kinds.{kind_of as type_of};
ghost use Rattle.sql_expr.specs.Meaning.{value_of, comparison, either_from, and_also, one_of, between};
ghost use Rattle.sql_expr.specs.Plain.{plainness, IsFaultless};
ghost use Rattle.sql_expr.specs.Typing.{IsTyped};
ghost use Rattle.sql_expr.specs.Values.{OnValue, IsRanged, HasShortTexts};

/// A plain condition has a value over each row, also over one that doesn't meet the columns that it is typed over.
pub fn plain_conditions_have_values()
    ensures { (columns : List Kind) (expr : Tree) (row : List SqlValue) → IsTyped columns expr → IsTrue (plainness expr).condition → IsFaultless (value_of row expr) }
{}

/// The value of an expression over a row that meets its columns has the form of the expression's type, where its
/// texts are within the row's limit. From numbers in their types' ranges comes a number in its type's range.
pub fn values_have_their_types_form()
    ensures form { (limit : ℕ) (columns : List Kind) (expr : Tree) (row : List SqlValue)
        → IsTyped columns expr → HasShortTexts limit expr → Meets limit columns row → OnValue (HasForm limit (type_of expr)) (value_of row expr) }
    ensures range { (columns : List Kind) (expr : Tree) (row : List SqlValue)
        → IsTyped columns expr → AllMeet IsRanged columns row → OnValue (IsRanged (type_of expr)) (value_of row expr) }
{}

/// IN is the OR of its equalities, and BETWEEN the AND of its two comparisons, though the operand is evaluated once.
pub fn operands_may_be_evaluated_once()
    ensures one_of { (m : Meaning) (constants : List Meaning) → constants ≢ [] → one_of m constants ≡ either_from (Ok (of_truth false)) (map (comparison Equal m) constants) }
    ensures between { (m low high : Meaning) → between m low high ≡ and_also (comparison AtLeast m low) (comparison AtMost m high) }
{}
