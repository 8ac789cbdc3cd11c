//! Laws of aggregates. The functions do nothing; their contracts say the laws.
ghost use Rattle.std.specs.Prelude.{◌≡◌, Bool, true, false, List, ◌++◌};
ghost use Rattle.ooc_types.specs.declared.schema.SqlType.{SqlType};
ghost use Rattle.ooc_types.specs.declared.value.Value.{Value};
ghost use Rattle.agg_states.specs.declared.kind.AggKind.{AggKind};
ghost use Rattle.agg_states.specs.Aggregates.{State, nothing_taken, together, state_of};
ghost use Rattle.agg_states.specs.Tally.{merged};
ghost use Rattle.agg_states.specs.Ways.{Way, values_in, outcome, tally_of, AreTaken, side_of};

/// Values of the type that are added to aggregates one by one, merged in any grouping, give the aggregate of the whole
/// list, whose cell is a left fold over it.
pub fn aggregates_stand_for_their_values()
    ensures any_grouping { (kind : AggKind) (of : SqlType) (way : Way) → AreTaken kind of way
        → outcome kind of way ≡ tally_of kind of (values_in way) }
    ensures any_split { (kind : AggKind) (of : SqlType) (choices : List Bool) (values : List Value)
        → merged (tally_of kind of (side_of true choices values)) (tally_of kind of (side_of false choices values)) ≡ tally_of kind of values }
{}

/// What aggregates take is put together in any order and grouping.
pub fn states_merge_in_any_grouping()
    ensures pieces { (xs ys : List Value) → state_of (xs ++ ys) ≡ together (state_of xs) (state_of ys) }
    ensures turned { (s t : State) → together s t ≡ together t s }
    ensures grouped { (s t u : State) → together (together s t) u ≡ together s (together t u) }
    ensures none { (s : State) → together s nothing_taken ≡ s }
{}
