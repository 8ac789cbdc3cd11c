//! What can happen.

use crate::image::Image;
use row_image::ImageKind;

/// One step of the pool.
#[derive(Drop)]
pub enum Event {
    /// The hand goes on.
    Hand {
        actor: u32,
    },
    /// An actor takes a turn out.
    Take {
        actor: u32,
        frame: u32,
    },
    /// It gives the turn back.
    Give {
        actor: u32,
        frame: u32,
    },
    /// It claims a page for reading.
    Read {
        actor: u32,
        page: u64,
    },
    /// It gives a reader's claim back.
    Leave {
        actor: u32,
        page: u64,
    },
    /// It becomes a page's writer.
    Claim {
        actor: u32,
        page: u64,
    },
    /// A writer changes the page's body, and is its writer no more.
    Put {
        actor: u32,
        page: u64,
        change: Change,
    },
    /// The image of a new page is put into the spare frame of a turn that is out.
    Seal {
        actor: u32,
        frame: u32,
        kind: ImageKind,
        image: Image,
        heaps: [Option<u64>; 4],
    },
    /// A reader of a row page and of its heap pages compares the bases.
    Look {
        actor: u32,
        page: u64,
    },
}

/// What a writer does to a page's body.
#[derive(Drop)]
pub enum Change {
    /// Nothing.
    Keep,
    /// The ticket's image is read back into the spare frame of a turn.
    Install { frame: u32 },
    /// The frame goes back to its turn. The page rests on its ticket.
    Rest,
    /// The texts of a part are at another base.
    Rebase { part: u32, base: u64 },
    /// The page's life ends.
    Kill,
}
