//! What the pool does to its frames and pages, one event at a time, and what stays true over every list of events.
#![tactic(auto)]

mod acts;
mod core_state;
mod enabled;
mod event;
mod image;
mod laws;
mod opening;
mod readers;
mod state;
mod step;
#[cfg(test)]
mod tests;

pub use core_state::{CoreState, CoreStop};
pub use event::{Change, Event};
pub use image::Image;
pub use laws::{
    bodies_stand, each_frame_is_in_one_place, looked_texts_are_the_stored_ones, read_pages_stay,
    the_state_stays_sound,
};
pub use readers::Readers;
pub use state::{CorePage, CoreTurn, Mark};
