//! Pages that are being written.

use evict_ring::Frame;
use row_image::ImageKind;

/// A page that is being written: the frame that it lies in, and what it is to be.
#[derive(Drop)]
pub struct OpenPage {
    pub frame: Frame,
    pub kind: ImageKind,
}

impl OpenPage {
    ghost use Rattle.std.specs.Prelude.{◌≡◌};
    ghost use Rattle.std.specs.Borrow.{sem};
    ghost use Rattle.page_body.specs.Lending.{LendsPage};

    /// The bytes of the page, to write to.
    pub fn bytes_mut(&mut self) -> &mut [u8]
        ensures* writes_back { sem 𝓛 (LendsPage self.entry result) }
        ensures value { result.now ≡ self.old.frame.bytes.items }
    {
        let frame = &mut self.frame;
        frame.bytes_mut()
    }
}
