//! The bytes of a page: row pages, heap pages, and what is tested before a page that was read
//! back is trusted.
#![tactic(auto)]

mod bytes;
mod cell;
mod check;
mod fits;
mod image;
mod layout;
mod limits;
mod moves;
mod parts;
mod put;
mod read;
#[cfg(test)]
mod tests;
mod texts;
mod write;

pub use bytes::{set_word, word_at};
pub use cell::{Cell, CellIn};
pub use check::{check_image, text_limit};
pub use fits::{a_row_fits_a_page, texts_of_the_limit_fit_a_heap_page};
pub use image::{Damage, DamageField, ImageKind, Part, RowPut, Shape};
pub use layout::{CellKind, Layout};
pub use limits::{
    HEAP_HEAD, LEAST_PAGE, MOST_COLUMNS, MOST_PAGE, MOST_SHORT, MOST_TEXTS, NO_HEAP, ROW_HEAD,
};
pub use moves::rebase;
pub use parts::{part_count, part_of};
pub use put::put_zeros;
pub use read::{read_cell, row_count, row_hash_of};
pub use texts::followed_texts_are_the_stored_ones;
pub use write::{new_rows, write_row};
