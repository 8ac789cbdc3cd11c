//! What a page's body is.
ghost use Rattle.std.specs.Prelude.{◌≡◌, ◌≢◌, ℕ, ◌<◌, ◌%◌, ◌^◌, Bool, List, Some, IfSome, length};
ghost use Rattle.row_image.specs.declared.image.ImageKind.{ImageKind};
ghost use Rattle.row_image.specs.declared.image.ImageKind.TheVariants.{Rows};
ghost use Rattle.row_image.specs.Bytes.{IsPage};
ghost use Rattle.row_image.specs.Image.{part_count, part_at, no_heap};
ghost use Rattle.row_image.specs.Rules.{IsAccepted};
ghost use Rattle.page_body.specs.Bodies.{IsResident, IsResting, CanRest, installed, rested, killed, frame_of, image_of, ticket_of, IsRebased};
ghost use Rattle.page_body.specs.Stands.{StandsFor, ImageStands, TicketStands};

use evict_ring::Frame;
use ooc_io::Ticket;
use row_image::Layout;
use std::mem;

/// Where a sealed page is: in a frame, perhaps beside a ticket of what a lane keeps; at a lane alone; or nowhere any
/// more, when its frame waits for the next that takes its turn.
#[derive(Drop)]
pub enum PageBody {
    Resident {
        frame: Frame,
        ticket: Option<Ticket>,
    },
    Resting {
        ticket: Ticket,
    },
    Dead {
        frame: Option<Frame>,
    },
}

impl PageBody {
    /// Puts the page's image, which a lane gave back, into a frame, and keeps the ticket. Where the image in the frame
    /// stands for what the page stood for, the page still does.
    pub fn install(&mut self, frame: Frame)
        requires { IsResting self.old }
        ensures becomes { self.new ≡ installed self.old frame }
        ensures stands { (told : Bool) (kind : ImageKind) (content : List ℕ) → StandsFor told kind content self.old
            → ImageStands told kind content frame.bytes.items → StandsFor told kind content self.new }
    {
        match mem::replace(self, PageBody::Dead { frame: None }) {
            PageBody::Resting { ticket } => {
                *self = PageBody::Resident {
                    frame,
                    ticket: Some(ticket),
                };
            }
            PageBody::Resident { .. } | PageBody::Dead { .. } => unreachable!(),
        }
    }

    /// Takes the frame out of the body. A resident page then rests on its own ticket, or else on the one given. A dead
    /// page stays dead.
    pub fn rest(&mut self, given: Option<Ticket>) -> Frame
        requires { CanRest self.old given }
        ensures frame { frame_of self.old ≡ Some result }
        ensures becomes { self.new ≡ rested self.old given }
        ensures stands { (told : Bool) (kind : ImageKind) (content : List ℕ) → StandsFor told kind content self.old
            → IfSome given (TicketStands told kind content) → StandsFor told kind content self.new }
    {
        match mem::replace(self, PageBody::Dead { frame: None }) {
            PageBody::Resident { frame, ticket } => match (ticket, given) {
                (Some(ticket), _) => {
                    *self = PageBody::Resting { ticket };
                    frame
                }
                (None, Some(ticket)) => {
                    *self = PageBody::Resting { ticket };
                    frame
                }
                (None, None) => unreachable!(),
            },
            PageBody::Dead { frame: Some(frame) } => frame,
            PageBody::Dead { frame: None } | PageBody::Resting { .. } => unreachable!(),
        }
    }

    /// Moves the texts of a part of a resident row page to another base, as `row_image::rebase` does. What the page
    /// stands for stays.
    pub fn rebase(&mut self, layout: &Layout, part: u32, base: u64)
        requires resident { IsResident self.old }
        requires page { IsPage (length (image_of self.old)) }
        requires accepted { IsAccepted (Rows layout.now) (image_of self.old) }
        requires part { part < part_count (image_of self.old) }
        requires heap { (part_at (image_of self.old) part).heap ≢ no_heap }
        requires aligned { base % length (image_of self.old) ≡ 0 }
        requires low { base < 2 ^ 48 }
        ensures becomes { IsRebased layout.now part base self.old self.new }
        ensures stands { (told : Bool) (content : List ℕ) → StandsFor told (Rows layout.now) content self.old
            → StandsFor told (Rows layout.now) content self.new }
    {
        if let PageBody::Resident { frame, .. } = self {
            row_image::rebase(layout, &mut frame.bytes, part, base);
        }
    }

    /// Ends the page's life. Its frame stays with the body for the next that takes its turn, and its ticket is handed
    /// out, to be given back to a lane.
    pub fn kill(&mut self) -> Option<Ticket>
        ensures ticket { result ≡ ticket_of self.old }
        ensures becomes { self.new ≡ killed self.old }
        ensures stands { (told : Bool) (kind : ImageKind) (content : List ℕ) → StandsFor told kind content self.new }
    {
        match mem::replace(self, PageBody::Dead { frame: None }) {
            PageBody::Resident { frame, ticket } => {
                *self = PageBody::Dead { frame: Some(frame) };
                ticket
            }
            PageBody::Resting { ticket } => Some(ticket),
            PageBody::Dead { frame } => {
                *self = PageBody::Dead { frame };
                None
            }
        }
    }
}
