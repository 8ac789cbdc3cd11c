//! Lanes that spill to files of the current folder. Which place an image goes to is proved over any store of images. Of
//! what the files hold nothing is told.
#![tactic(auto)]

mod file_lane;
mod file_store;
mod images;
mod place;
mod places;

pub use file_lane::FileLane;
pub use file_store::{FileStore, MOST_LANES};
pub use images::ImageStore;
pub use place::Place;

#[cfg(test)]
mod tests;
