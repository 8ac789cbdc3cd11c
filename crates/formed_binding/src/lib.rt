//! Laws of bound statements: what binding answers is well-formed, rule by rule.
#![tactic(auto)]

mod laws;

pub use laws::{
    bound_statements_are_well_formed, bound_tables_are_well_formed,
    chains_and_conditions_give_parts, cores_are_well_formed, covered_trees_are_typed_over_groups,
    gathered_aggregates_are_well_formed, having_is_well_formed, items_are_well_formed,
    joins_are_well_formed, leaves_are_parts, operands_of_where_are_well_formed,
    operations_give_parts, ordered_rows_are_well_formed, set_operations_keep_rows_well_formed,
    sources_are_well_formed,
};
