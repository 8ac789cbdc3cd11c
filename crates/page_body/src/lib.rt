//! What a page's body is, and the pool of pages as one worker sees it.
#![tactic(auto)]

mod base;
mod body;
pub mod clients;
mod fault;
mod lanes;
mod mem_page;
mod mem_pages;
mod moves;
mod open;
mod pages;
mod slot;

pub use base::base_of;
pub use body::PageBody;
pub use fault::PoolFault;
pub use lanes::{load_from, ticket_for};
pub use mem_page::{MemPage, MemPin};
pub use mem_pages::MemPages;
pub use open::OpenPage;
pub use pages::Pages;

#[cfg(test)]
mod tests;
