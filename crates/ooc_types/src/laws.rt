//! Laws of the definitions. The functions do nothing; their contracts say the laws.
ghost use Rattle.std.specs.Prelude.{◌≡◌, ◌↔◌, All, List, ℕ, ℤ, pos, ◌<◌, ◌^◌, ◌*ℤ◌};
ghost use Rattle.std.specs.Cmp.{IsTotalOrder};
ghost use Rattle.std.specs.Ordering.{int_cmp};
ghost use Rattle.ooc_types.specs.Order.{value_cmp};
ghost use Rattle.ooc_types.specs.declared.value.Value.TheVariants.{Number};
ghost use Rattle.ooc_types.specs.declared.value.Value.{Value as SqlValue};
ghost use Rattle.ooc_types.specs.declared.schema.SqlType.{SqlType};
ghost use Rattle.ooc_types.specs.Meets.{HasForm};
ghost use Rattle.ooc_types.specs.Strict.{strict_cmp};
ghost use Rattle.std.specs.declared.cmp.Ordering.TheVariants.{Equal};
ghost use Rattle.ooc_types.specs.Canonical.{canonical};
ghost use Rattle.ooc_types.specs.Keys.{AreEqual, HasShortText, IsHeld};

/// The order of values is total: of two values one comes first or they tie, and what ties with a value comes where
/// it does.
pub fn values_are_totally_ordered()
    ensures { IsTotalOrder value_cmp }
{}

/// Numbers are ordered by value, whatever their scales: `a / 10^m` and `b / 10^n` as `a * 10^n` and `b * 10^m`.
pub fn numbers_compare_by_value()
    ensures { (a b : ℤ) (m n : ℕ) → m < 256 → n < 256
        → value_cmp (Number a m) (Number b n) ≡ int_cmp (a *ℤ pos (10 ^ n)) (b *ℤ pos (10 ^ m)) }
{}

/// In the strict order, which tells equal numbers of different scales apart, what ties is the same value. Of values
/// that have the form of one type it is the order of values.
pub fn strict_order_is_total()
    ensures total { IsTotalOrder strict_cmp }
    ensures ties { (v w : SqlValue) → strict_cmp v w ≡ Equal → v ≡ w }
    ensures within_a_type { (limit : ℕ) (kind : SqlType) (v w : SqlValue) → HasForm limit kind v → HasForm limit kind w
        → strict_cmp v w ≡ value_cmp v w }
{}

/// Two keys of values that a variable can hold, whose texts are shorter than 2^32 bytes, have equal canonical bytes exactly where they are equal value by
/// value: numbers by value, and NULL with NULL.
pub fn keys_have_their_own_bytes()
    ensures { (key other : List SqlValue) → All IsHeld key → All IsHeld other → All HasShortText key → All HasShortText other
        → (canonical key ≡ canonical other) ↔ AreEqual key other }
{}
