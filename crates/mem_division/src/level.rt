//! A division by a level, which takes time in the number of places and not of frames.
ghost use Rattle.std.specs.Prelude.{◌≡◌, ◌⊎◌, ◌≤◌, ◌<◌, ◌-◌, suc, All, length, map, sum};
ghost use Rattle.std.specs.Option.{SomeIff};
ghost use Rattle.mem_division.specs.Division.{division, least_of, IsWant};
ghost use Rattle.mem_division.specs.Level as spec;
ghost use Rattle.mem_division.specs.Level.{AllBelow, sum_at, filled};

// What a place has at a level.
fn grant_at(level: u32, least: u32, most: u32) -> u32
    ensures { result ≡ spec.grant_at level least most }
{
    most.min(level).max(least)
}

// Whether a place stands at the level and may get more.
#[tactic(auto, unfolding(crate::specs::Level::rises))]
fn rises(level: u32, least: u32, most: u32) -> bool
    ensures { result ≡ spec.rises level least most }
{
    least <= level && level < most
}

// What is left of the total where all places stand at the level, and none where the total doesn't reach.
fn left_over(total: u32, level: u32, wants: &[(u32, u32)]) -> Option<u32>
    ensures { SomeIff result (sum_at level wants.now ≤ total) (total - sum_at level wants.now) }
{
    let mut left = total;
    for i in 0..wants.len() {
        let (least, most) = wants[i];
        match left.checked_sub(grant_at(level, least, most)) {
            Some(rest) => left = rest,
            None => return None,
        }
    }
    Some(left)
}

// The most that a place wants.
fn greatest_most(wants: &[(u32, u32)]) -> u32
    ensures { AllBelow result wants.now }
{
    let mut greatest = 0;
    for i in 0..wants.len() {
        let (_least, most) = wants[i];
        greatest = most.max(greatest);
    }
    greatest
}

// The greatest level that the total reaches, or one at which no place wants more.
fn level_of(total: u32, wants: &[(u32, u32)]) -> u32
    requires { sum_at 0 wants.now ≤ total }
    ensures reached { sum_at result wants.now ≤ total }
    ensures greatest { (total < sum_at (suc result) wants.now) ⊎ AllBelow result wants.now }
{
    let mut low = 0;
    let mut high = greatest_most(wants);
    while low < high {
        let middle = high - (high - low) / 2;
        match left_over(total, middle, wants) {
            Some(_) => low = middle,
            None => high = middle - 1,
        }
    }
    low
}

// Writes what each place has at the level, and one more for the first `rest` of those that rise.
fn fill(level: u32, rest: u32, wants: &[(u32, u32)], into: &mut [u32])
    requires { length wants.now ≡ length into.old }
    ensures { into.new ≡ map (λ place. place.grant) (filled level rest wants.now) }
{
    let mut left = rest;
    for i in 0..wants.len() {
        let (least, most) = wants[i];
        let grant = grant_at(level, least, most);
        if rises(level, least, most) && 0 < left {
            into[i] = grant + 1;
            left -= 1;
        } else {
            into[i] = grant;
        }
    }
}

/// Divides the total among places that want at least the first number and at most the second: each gets its first
/// number, and then one more goes, again and again, to the smallest grant below its second number, the earlier on
/// ties, until the total is spent or none is below. It takes no memory, and time in the number of places.
pub fn divide(total: u32, wants: &[(u32, u32)], into: &mut [u32])
    requires lengths { length wants.now ≡ length into.old }
    requires wants { All IsWant wants.now }
    requires enough { sum (least_of wants.now) ≤ total }
    ensures { into.new ≡ division total wants.now }
{
    let level = level_of(total, wants);
    if let Some(rest) = left_over(total, level, wants) {
        fill(level, rest, wants, into);
    }
}
