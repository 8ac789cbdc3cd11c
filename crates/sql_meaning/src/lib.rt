//! What a SELECT over plain lists means, and the laws of that meaning.
#![tactic(auto)]

mod kinds;
mod laws;

pub use kinds::AggKind;
pub use laws::{
    columns_are_put_back_by_place, columns_move_with_their_places, conditions_act_in_turn,
    conjuncts_stand_anywhere, free_joins_are_loops, free_plans_mean_the_select,
    groups_stand_part_by_part, joins_go_piece_by_piece, joins_mean_their_on,
    joins_stand_part_by_part, loops_stand_in_any_order, merged_groups_are_the_groups,
    on_is_filter_keys_and_rest, order_gives_one_list, partial_groups_stand_for_rows,
    plain_joins_are_free, rows_come_in_any_order, rows_in_order_are_one_list,
    sets_count_their_rows, states_merge_in_any_grouping, tables_come_in_any_order,
};
