//! Scripts opened: a file's bytes, its tokens, and the statements that the grammar derives from them.
#![tactic(auto)]

mod limits;
mod opening;
mod reading;
mod tokens;

pub use limits::MOST_SCRIPT;
pub use opening::{OpenedScript, open_script};
