//! A pool of pages for one thread, over one spill lane that is lent.
#![tactic(auto)]

mod entry;
mod moves;
mod page;
mod slots;
mod solo;
mod solo_tables;
mod spill;

pub use page::{SoloPage, SoloPin};
pub use solo::Solo;
pub use solo_tables::SoloTables;
