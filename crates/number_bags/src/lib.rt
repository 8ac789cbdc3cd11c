//! Lists of numbers as bags: what pools, sets of pages and rings say of page numbers, frame numbers and turns.
//!
//! There is no code here. The definitions are in `specs/Bags.antt`, the lemmas for those who prove with them in
//! `proofs/Bags.antt`, and the laws stand on functions that do nothing.
#![tactic(auto)]

ghost use Rattle.std.specs.Prelude.{◌≡◌, ◌≢◌, ◌<◌, ◌≤◌, ◌+◌, ◌++◌, ℕ, List, length};
ghost use Rattle.number_bags.specs.Bags.{one_of, times, without};

/// The bag of one number has that number once, and no other.
pub fn one_number_stands_alone()
    ensures there { (x : ℕ) → one_of x x ≡ 1 }
    ensures alone { (x y : ℕ) → y ≢ x → one_of x y ≡ 0 }
{}

/// The bag of two lists put together is the sum of their bags.
pub fn lists_put_together_are_summed()
    ensures { (xs ys : List ℕ) (y : ℕ) → times (xs ++ ys) y ≡ times xs y + times ys y }
{}

/// A number that is left out stands in the list once less, and all others as often as before.
pub fn a_number_left_out_stands_once_less()
    ensures bag { (xs : List ℕ) (x y : ℕ) → 0 < times xs x → times xs y ≡ times (without x xs) y + one_of x y }
    ensures count { (xs : List ℕ) (x : ℕ) → 0 < times xs x → length xs ≡ length (without x xs) + 1 }
{}

/// Numbers below a bound that differ are at most as many as the bound.
pub fn different_numbers_below_a_bound_are_few()
    ensures { (xs : List ℕ) (bound : ℕ) → ((y : ℕ) → times xs y ≤ 1) → ((y : ℕ) → bound ≤ y → times xs y ≡ 0) → length xs ≤ bound }
{}
