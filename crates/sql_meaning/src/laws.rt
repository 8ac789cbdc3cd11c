//! Laws of the meaning. The functions do nothing; their contracts say the laws.
ghost use Rattle.std.specs.Prelude.{◌≡◌, ℕ, Bool, true, false, ◌&&◌, List, [], ◌∷◌, ◌++◌, map, filter, flat_map, count_by, length, not, if◌then◌else◌, Option, Ok};
ghost use Rattle.std.specs.List.{AllByRecursion};
ghost use Rattle.std.specs.List.Sorted.{IsSorted};
ghost use Rattle.ooc_bags.specs.Bags.{SameBag};
ghost use Rattle.ooc_bags.specs.Rows.{row_eq};
ghost use Rattle.ooc_types.specs.declared.value.Value.{Value};
ghost use Rattle.sql_expr.specs.declared.tree.Expr.{Expr as Tree};
ghost use Rattle.sql_meaning.specs.Found.{Found, Row, IsSame, clean, collected, and_then, unless_faulted};
ghost use Rattle.sql_meaning.specs.Judged.{Condition, RowValue, is_plain, filtered};
ghost use Rattle.sql_meaning.specs.From.{Source, from_behind, from_rows};
ghost use Rattle.sql_meaning.specs.Ordered.{SortKey, row_cmp, sorted, value_at};
ghost use Rattle.sql_meaning.specs.Aggregates.{State, finished, together, nothing_taken, state_of};
ghost use Rattle.sql_meaning.specs.Groups.{Aggregation, Grouping, Keyed, keys_of, rows_of, aggregated, groups};
ghost use Rattle.sql_meaning.specs.Select.{Core, Cut, selected, cut_found};
ghost use Rattle.sql_meaning.specs.Same.{IsSameCore, AreSameSources, Agrees};
ghost use Rattle.ooc_bags.specs.Rearranged.{IsRearranged};
ghost use Rattle.sql_meaning.specs.Free.{Table, places_of, Loop, looped, all_pass, tables_of, width_of, IsWide, reordered, IsFree, loop_of, AreLoopsOf};
ghost use Rattle.sql_meaning.specs.Stage.{KeyPair, keys_meet, on_verdict, stage_verdict, Side, side_joined, AreJoinsOf, joined_behind};
ghost use Rattle.sql_meaning.specs.Pool.{all_true, SayOf, IsPlainCondition};
ghost use Rattle.ooc_bags.specs.Parts.{part, AreParts};
ghost use Rattle.sql_meaning.specs.Parts.{side_part, MeetInParts};
ghost use Rattle.sql_meaning.specs.Pieces.{Partial, StandFor, merged, one_row};
ghost use Rattle.sql_meaning.specs.Sets.{Times, combined, member};
ghost use Rattle.sql_expr.specs.Kinds.{kind_of as type_of};
ghost use Rattle.sql_expr.specs.Meaning.{value_of};
ghost use Rattle.sql_meaning.specs.Moved.{moved};
ghost use Rattle.sql_meaning.specs.Statements.{Tables, rows_meaning, select_meaning, cut_of};
ghost use Rattle.bound_tree.specs.declared.select.BoundRows.{BoundRows as SelectRows};
ghost use Rattle.bound_tree.specs.declared.select.BoundSelect.{BoundSelect as WholeSelect};
ghost use Rattle.bound_tree.specs.declared.select.BoundRows.TheViews.{out-BoundSelect};
ghost use Rattle.sql_meaning.specs.Plan.{put_back, above_where, IsFreePlan};

/// Sources that give the same bags give the same result: the same bag of rows and the same faults.
pub fn rows_come_in_any_order()
    ensures { (c d : Core) (ss ts : List Source) → IsSameCore c d → AreSameSources ss ts → IsSame (selected c ss) (selected d ts) }
{}

/// Under ORDER BY, LIMIT or OFFSET the same bag gives the same list.
pub fn order_gives_one_list()
    ensures { (cut : Option Cut) (f g : Found Row) → IsSame f g → Agrees cut (cut_found cut f) (cut_found cut g) }
{}

/// Conditions one after the other: the later ones act on the rows that the earlier ones kept.
pub fn conditions_act_in_turn()
    ensures { (earlier later : List Condition) (rows : List Row) → IsSame (filtered (earlier ++ later) rows) (and_then (filtered earlier rows) (filtered later)) }
{}

/// Inner joins whose ON can't fault are nested loops with tests.
pub fn free_joins_are_loops()
    ensures { (sources : List Source) (rows : List Row) → AllByRecursion IsFree sources → from_behind sources rows ≡ clean (looped (map loop_of sources) rows) }
{}

/// Nested loops in another order, with their tests anywhere, give the same bag, once the columns are put back.
pub fn loops_stand_in_any_order()
    ensures { (plan written : List Loop) (order : IsRearranged (tables_of plan) (tables_of written)) (extra rest : Row → Bool)
        → AllByRecursion IsWide (tables_of plan) → AllByRecursion IsWide (tables_of written)
        → ((row : Row) → length row ≡ width_of (tables_of plan) → (extra row && all_pass 0 plan row) ≡ (rest (reordered (tables_of plan) (tables_of written) order row) && all_pass 0 written (reordered (tables_of plan) (tables_of written) order row)))
        → SameBag (map (reordered (tables_of plan) (tables_of written) order) (filter extra (looped plan ([] ∷ [])))) (filter rest (looped written ([] ∷ []))) }
{}

/// The stages of a plan over a free FROM mean the SELECT: joins in the plan's order, the conditions that are left in WHERE,
/// and what acts above.
pub fn free_plans_mean_the_select()
    ensures { (core planned : Core) (sources : List Source) (sides : List Side) (loops : List Loop) (bare left : List Condition) → AreLoopsOf 0 sides loops → IsFreePlan core sources loops bare left planned
        → IsSame (unless_faulted core.inner (above_where planned (and_then (joined_behind sides ([] ∷ [])) (filtered (bare ++ left))))) (selected core sources) }
{}

/// A grouping is that of its parts, where the rows of a key stand in one part.
pub fn groups_stand_part_by_part()
    ensures { (grouping : Grouping) (key : RowValue) (keys : List RowValue) (number : Row → ℕ) (ks : List ℕ) (rows : List Keyed) → grouping.keys ≡ key ∷ keys → AreParts number ks
        → IsSame (collected (λ k. groups grouping (part (λ one. number one.key) k rows)) ks) (groups grouping rows) }
{}

/// A join is that of its parts, where rows that meet stand in one part. Each left row is padded in its own part alone.
pub fn joins_stand_part_by_part()
    ensures { (left right : Row → ℕ) (side : Side) (ks : List ℕ) (rows : List Row) → MeetInParts left right side → AreParts left ks
        → IsSame (collected (λ k. side_joined (side_part right k side) (part left k rows)) ks) (side_joined side rows) }
{}

/// What aggregates take doesn't depend on the order of the values, nor on the pieces in which they were taken and merged.
pub fn states_merge_in_any_grouping()
    ensures order { (xs ys : List Value) → SameBag xs ys → state_of xs ≡ state_of ys }
    ensures pieces { (xs ys : List Value) → state_of (xs ++ ys) ≡ together (state_of xs) (state_of ys) }
    ensures turned { (s t : State) → together s t ≡ together t s }
    ensures grouped { (s t u : State) → together (together s t) u ≡ together s (together t u) }
    ensures none { (s : State) → together s nothing_taken ≡ s }
{}

/// Partial groups that stand for rows: one for a row, two lists put together, two of one key merged, those of a part,
/// and all of this in any order.
pub fn partial_groups_stand_for_rows()
    ensures one { (of : Option RowValue) (row : Keyed) → StandFor of (one_row of row ∷ []) (row ∷ []) }
    ensures both { (of : Option RowValue) (ps qs : List Partial) (xs ys : List Keyed) → StandFor of ps xs → StandFor of qs ys → StandFor of (ps ++ qs) (xs ++ ys) }
    ensures merged { (of : Option RowValue) (p q : Partial) (ps : List Partial) (rows : List Keyed) → p.key ≡ q.key → StandFor of (p ∷ q ∷ ps) rows
        → StandFor of (record { key = p.key; state = together p.state q.state } ∷ ps) rows }
    ensures parts { (of : Option RowValue) (ps : List Partial) (rows : List Keyed) (number : Row → ℕ) (k : ℕ) → StandFor of ps rows
        → StandFor of (part (λ p. number p.key) k ps) (part (λ one. number one.key) k rows) }
    ensures rearranged { (of : Option RowValue) (ps qs : List Partial) (xs ys : List Keyed) → SameBag ps qs → SameBag xs ys → StandFor of ps xs → StandFor of qs ys }
{}

/// Rows in order are the one list in order of their bag.
pub fn rows_in_order_are_one_list()
    ensures { (keys : List SortKey) (xs ys : List Row) → SameBag xs ys → IsSorted (row_cmp keys) ys → ys ≡ sorted (row_cmp keys) xs }
{}

/// The joins of a FROM that isn't free, in written order, with keys, filters of the sources and rests in place of ON.
pub fn joins_mean_their_on()
    ensures { (sources : List Source) (sides : List Side) → AreJoinsOf 0 sources sides → joined_behind sides ([] ∷ []) ≡ from_rows sources }
{}

/// Where the conjuncts of a plan's loops are those of the written loops and some of WHERE, a row passes the tests of the
/// plan where its columns, put back, pass both.
pub fn conjuncts_stand_anywhere()
    ensures { (back : Row → Row) (row : Row) (plan written : List Loop) (placed on : List (List Condition)) (pushed : List Condition)
        → SayOf back row 0 plan placed → SayOf (λ r. r) (back row) 0 written on → SameBag (flat_map (λ list. list) placed) (pushed ++ flat_map (λ list. list) on)
        → all_pass 0 plan row ≡ (all_true pushed (back row) && all_pass 0 written (back row)) }
{}

/// Columns are put back by their places, which depend on the widths of the tables alone.
pub fn columns_are_put_back_by_place()
    ensures { (xs ys : List Table) (order : IsRearranged xs ys) (row : Row) → length row ≡ width_of xs → map (λ place. value_at place row) (places_of xs ys order) ≡ reordered xs ys order row }
{}

/// A table that is joined by INNER JOIN, with plain conditions that are typed, is free: its ON can't fault over any row.
pub fn plain_joins_are_free()
    ensures { (source : Source) → source.pads ≡ false → AllByRecursion IsPlainCondition source.on → IsFree source }
{}

/// An expression whose columns were moved says over a row what it says over the row with its columns put back, and has its
/// type.
pub fn columns_move_with_their_places()
    ensures value { (places : List ℕ) (row : Row) (expr : Tree) → value_of row (moved places expr) ≡ value_of (put_back places row) expr }
    ensures kind { (places : List ℕ) (expr : Tree) → type_of (moved places expr) ≡ type_of expr }
{}

/// A join over the pieces of its left side, as its pages or blocks.
pub fn joins_go_piece_by_piece()
    ensures { (side : Side) (pieces : List (List Row)) → IsSame (collected (side_joined side) pieces) (side_joined side (flat_map (λ piece. piece) pieces)) }
{}

/// Where a row stands a times in the left list and b times in the right, a set operation gives it `times a b` times; it
/// doesn't see the order of its lists, nor does membership.
pub fn sets_count_their_rows()
    ensures count { (times : Times) (left right : List Row) (row : Row) → times 0 0 ≡ 0
        → count_by (row_eq row) (combined times left right) ≡ times (count_by (row_eq row) left) (count_by (row_eq row) right) }
    ensures order { (times : Times) (ls ms rs ss : List Row) → SameBag ls ms → SameBag rs ss → SameBag (combined times ls rs) (combined times ms ss) }
    ensures member { (x : Value) (xs ys : List Value) → SameBag xs ys → member x xs ≡ member x ys }
{}

/// The keys of the rows, once each, with the cells that merged partial groups give, are the groups.
pub fn merged_groups_are_the_groups()
    ensures cell { (aggregate : Aggregation) (ps : List Partial) (rows : List Keyed) → aggregate.distinct ≡ false → StandFor aggregate.of ps rows → (key : Row)
        → finished aggregate.kind aggregate.scale (merged key ps) ≡ aggregated (rows_of key rows) aggregate }
    ensures rows { (grouping : Grouping) (rows : List Keyed) (keys : List Row) (cell : Row → Aggregation → Value) → SameBag keys (keys_of grouping.keys rows)
        → ((key : Row) (aggregate : Aggregation) → cell key aggregate ≡ aggregated (rows_of key rows) aggregate)
        → SameBag (map (λ key. key ++ map (cell key) grouping.aggregates) keys) (groups grouping rows).rows }
{}

/// Where the plain conjuncts of ON are those of a filter of the source, of keys and of a rest, ON keeps a pair where the
/// filter, the keys and then the rest do.
pub fn on_is_filter_keys_and_rest()
    ensures { (on filters keyed stayed : List Condition) (own : Row → Bool) (keys : List KeyPair) (l r : Row)
        → AllByRecursion IsPlainCondition (filter is_plain on) → AllByRecursion IsPlainCondition stayed
        → SameBag (filter is_plain on) ((filters ++ keyed) ++ stayed)
        → own r ≡ all_true filters (l ++ r) → keys_meet keys l r ≡ all_true keyed (l ++ r)
        → on_verdict on l r ≡ (if own r then stage_verdict keys (stayed ++ filter (λ c. not (is_plain c)) on) l r else Ok false) }
{}

/// The meaning of a SELECT doesn't see the order of its tables' rows; under ORDER BY, LIMIT or OFFSET it is one list.
pub fn tables_come_in_any_order()
    ensures rows { (s t : Tables) → ((name : List ℕ) → SameBag (s name) (t name)) → (rows : SelectRows) → IsSame (rows_meaning s rows) (rows_meaning t rows) }
    ensures select { (s t : Tables) → ((name : List ℕ) → SameBag (s name) (t name)) → (select : WholeSelect)
        → Agrees (cut_of (out-BoundSelect select).cut) (select_meaning s select) (select_meaning t select) }
{}
