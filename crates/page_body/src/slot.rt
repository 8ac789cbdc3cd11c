//! Where the frames of a pool in memory are.

use crate::moves::move_parts;
use crate::open::OpenPage;
use evict_ring::Frame;
use row_image::Layout;
use std::snapshot::Snapshot;

/// A frame that an open page lies in, that of a sealed page with the number of its pins, or one that is used up.
#[derive(Drop)]
pub enum Slot {
    Open,
    Sealed {
        frame: Frame,
        pins: u32,
        seal: Snapshot<OpenPage>,
    },
    Gone,
}

impl Slot {
    ghost use Rattle.std.specs.Prelude.{◌≡◌, ◌+◌, ◌-◌, ◌<◌, length, Some};
    ghost use Rattle.row_image.specs.declared.image.ImageKind.TheVariants.{Rows};
    ghost use Rattle.row_image.specs.Bytes.{IsPage};
    ghost use Rattle.row_image.specs.Rules.{IsAccepted};
    ghost use Rattle.page_body.specs.Shows.{AreBases, most_frames};
    ghost use Rattle.page_body.specs.Slots.{HasPage, pins_of, bytes_of, frame_of, with_pins, IsMoved};

    /// Puts a pin on the page.
    pub fn hold(&mut self)
        requires page { HasPage self.old }
        requires few { pins_of self.old < most_frames }
        ensures { self.new ≡ with_pins self.old (pins_of self.old + 1) }
    {
        if let Slot::Sealed { pins, .. } = self {
            *pins += 1;
        }
    }

    /// Takes a pin off the page.
    pub fn release(&mut self)
        requires { 0 < pins_of self.old }
        ensures { self.new ≡ with_pins self.old (pins_of self.old - 1) }
    {
        if let Slot::Sealed { pins, .. } = self {
            *pins -= 1;
        }
    }

    /// Moves the texts of a row page to the bases of its parts, and puts a pin on the page.
    pub fn hold_at(&mut self, layout: &Layout, bases: &[u64])
        requires page { HasPage self.old }
        requires few { pins_of self.old < most_frames }
        requires long { IsPage (length (bytes_of self.old)) }
        requires accepted { IsAccepted (Rows layout.now) (bytes_of self.old) }
        requires bases { AreBases (length (bytes_of self.old)) bases.now }
        ensures { IsMoved layout.now bases.now self.old self.new }
    {
        if let Slot::Sealed { frame, pins, .. } = self {
            move_parts(layout, &mut frame.bytes, bases);
            *pins += 1;
        }
    }

    /// The frame of the page.
    pub fn frame(&self) -> &Frame
        requires { HasPage self.now }
        ensures { frame_of self.now ≡ Some result.now }
    {
        match self {
            Slot::Sealed { frame, .. } => frame,
            _ => unreachable!(),
        }
    }
}
