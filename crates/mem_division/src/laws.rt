//! Laws of the definition. The function does nothing; its contract says them.
ghost use Rattle.std.specs.Prelude.{ℕ, ◌≤◌, All, List, sum};
ghost use Rattle.mem_division.specs.Division.{division, least_of, IsWant, Want, AreWithin};

/// Each place gets what it wants: at least its first number and at most its second. All together get no more than
/// the total.
pub fn grants_fit_the_total()
    ensures within { (total : ℕ) (wants : List Want) → All IsWant wants → AreWithin wants (division total wants) }
    ensures total { (total : ℕ) (wants : List Want) → All IsWant wants → sum (least_of wants) ≤ total → sum (division total wants) ≤ total }
{}
