//! Heap pages: texts, one behind the other.
#![tactic(auto)]

mod heap;
#[cfg(test)]
mod tests;

pub use heap::{new_heap, put, room, text_at};
