//! Laws of the definitions. The functions do nothing; their contracts say the laws.
ghost use Rattle.std.specs.Prelude.{◌≡◌, List, ℕ, Some};
ghost use Rattle.sql_lex.specs.Values as values;
ghost use Rattle.sql_lex.specs.declared.values.DecimalValue.{DecimalValue};

/// The value of a decimal's text is a literal of a proper type: its width is from 1 to 38, at least its scale, and the least that its digits need.
pub fn a_decimal_is_proper()
    ensures { (text : List ℕ) (d : DecimalValue) → values.decimal_value text ≡ Some d → values.IsProperDecimal d }
{}
