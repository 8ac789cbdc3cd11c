//! Tickets of spilled images, and the marks of lanes.
ghost use Rattle.std.specs.Prelude.{◌≡◌, Some, None, true, false, Bool, IsSome, IfSome, IfOk, length};

use crate::fault::OutOfMemory;
use std::alloc::Global;
use std::marker::Model;

/// Whether the lanes of a mark tell what their tickets hold. No code can read it.
pub trait TicketMark {
    ghost tells: { Bool };
}

/// The mark of a lane that tells.
pub struct Telling;

/// The mark of a lane that doesn't.
pub struct Silent;

impl TicketMark for Telling {
    ghost tells = { true };
}

impl TicketMark for Silent {
    ghost tells = { false };
}

/// The bytes of an image.
#[derive(Debug, Drop)]
struct Image {
    bytes: Vec<u8>,
}

impl Model for Image {
    ghost use Rattle.std.specs.Prelude.{List, ℕ};

    ghost Value = { List ℕ };

    ghost view = { λ i. i.bytes.items };
}

/// The place of a spilled image. A ticket that tells keeps the image's bytes.
#[derive(Debug, Drop)]
pub struct Ticket {
    pub lane: u32,
    pub place: u64,
    kept: Option<Image>,
}

impl Ticket {
    /// A ticket that doesn't tell.
    pub fn new_ticket(lane: u32, place: u64) -> Ticket
        ensures { result ≡ record { lane = lane; place = place; kept = None } }
    {
        Ticket {
            lane,
            place,
            kept: None,
        }
    }

    /// A ticket that keeps a copy of the image.
    pub fn with_image(
        alloc: Global,
        lane: u32,
        place: u64,
        image: &[u8],
    ) -> Result<Ticket, OutOfMemory>
        ensures { IfOk result (λ t. t ≡ record { lane = lane; place = place; kept = Some image.now }) }
    {
        Ok(Ticket {
            lane,
            place,
            kept: Some(Image {
                bytes: Vec::from_slice(alloc, image)?,
            }),
        })
    }

    /// Copies the bytes that the ticket keeps. Where it tells can't be read, so only a lane that tells calls this.
    pub fn copy_kept(&self, into: &mut [u8])
        requires tells { IsSome self.now.kept }
        requires fits { IfSome self.now.kept (λ bytes. length into.old ≡ length bytes) }
        ensures { self.now.kept ≡ Some into.new }
    {
        if let Some(image) = &self.kept {
            into.copy_from_slice(&image.bytes);
        }
    }
}
