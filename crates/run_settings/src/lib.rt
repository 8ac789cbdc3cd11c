//! What the words of a command line say, and the lines that tell how a run ends.
#![tactic(auto)]

mod grants;
mod laws;
mod limits;
mod lines;
mod numbers;
mod settings;
mod sizes;
mod status;
mod words;

pub use grants::Grants;
pub use laws::grants_fit_the_frames;
pub use lines::{OUT_OF_MEMORY_LINE, append_line};
pub use settings::{ScriptName, Settings, read_check_settings, read_settings};
pub use status::{Place, Refusal, Status, UsageFault};
