//! Pointer tables: words at places, searched from a place on and round the end, up to the first empty place.
//!
//! A word names a row and has the row's salt in its highest 16 bits. An empty place has the word 0.
#![tactic(auto)]

mod laws;
mod search;
mod words;

pub use laws::{
    a_word_put_in_is_one_pointer_more, empty_places_are_a_table_of_no_pointers,
    searches_meet_each_word_once, searches_meet_no_more_than_one_salt,
    searches_meet_words_of_the_table,
};
pub use search::{free_place, next_salted, put_word};
pub use words::Words;

#[cfg(test)]
mod tests;
