//! Values, rows and schemas: the types that every crate above names.
#![tactic(auto)]

mod canonical;
mod laws;
mod memory;
mod order;
mod refusal;
mod row;
mod schema;
mod text;
mod truth;
mod value;

pub use canonical::{canonical_bytes, day_bytes, digits_bytes, length_bytes, reduce};
pub use laws::{
    keys_have_their_own_bytes, numbers_compare_by_value, strict_order_is_total,
    values_are_totally_ordered,
};
pub use memory::OutOfMemory;
pub use order::cmp_values;
pub use refusal::RefusalKind;
pub use row::Row;
pub use schema::{Column, Schema, SqlType};
pub use text::Text;
pub use truth::Truth;
pub use value::Value;

#[cfg(test)]
mod tests;
