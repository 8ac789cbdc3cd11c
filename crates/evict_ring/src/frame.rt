//! Frames of memory.
ghost use Rattle.std.specs.Prelude.{◌≡◌};

/// A frame of memory, with its number and the bytes of one page. An address of a text names the frame that its heap
/// page lies in, so a number belongs to its bytes for good.
#[derive(Debug, Drop)]
pub struct Frame {
    pub number: u32,
    pub bytes: Vec<u8>,
}

impl Frame {
    ghost use Rattle.evict_ring.specs.Lending.{LendsFrame};
    ghost use Rattle.std.specs.Borrow.{sem};

    /// The bytes, to write to.
    pub fn bytes_mut(&mut self) -> &mut [u8]
        ensures* writes_back { sem 𝓛 (LendsFrame self.entry result) }
        ensures value { result.now ≡ self.old.bytes.items }
    {
        self.bytes.as_mut_slice()
    }
}
