//! Places in a list.
ghost use Rattle.std.specs.Prelude.{◌≡◌};
ghost use Rattle.sql_clauses.specs.Places as rules;

/// How many items of a list pass a test, and where the only one stands.
#[derive(Clone, Copy)]
pub(crate) enum Seen {
    Nothing,
    One(usize),
    Several,
}

/// What is seen where one more item passes, or doesn't.
pub(crate) fn counted(holds: bool, before: Seen, place: usize) -> Seen
    ensures { result ≡ rules.counted holds before place }
{
    if !holds {
        return before;
    }
    match before {
        Seen::Nothing => Seen::One(place),
        Seen::One(_) | Seen::Several => Seen::Several,
    }
}
