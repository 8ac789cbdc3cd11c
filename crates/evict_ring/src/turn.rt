//! Turns of frames.
use crate::frame::Frame;

/// The turn of a frame: who takes it out may give the frame to a page. At home it has the frame itself, where no page
/// has it, or else the page that does.
#[derive(Debug, Drop)]
pub struct Turn<H> {
    /// The number of the frame.
    pub frame: u32,
    pub spare: Option<Frame>,
    pub owner: Option<H>,
}
