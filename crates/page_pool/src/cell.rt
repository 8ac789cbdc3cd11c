//! What the cell of a page holds, and the fact that it keeps.
ghost use Rattle.std.specs.Prelude.{◌≡◌};
ghost use Rattle.page_pool.specs.Backed.{IsBacked};

use crate::share::FrameShare;
use counted_slot::{Counted, Fits};
use ooc_io::TicketMark;
use page_body::PageBody;
use row_image::ImageKind;
use std::marker::PhantomData;
use std::snapshot::Snapshot;
use std::sync::ledger::Ledger;

/// What a page was sealed with, and what the frames of its pool are. The image is no copy: only clauses read it.
#[derive(Drop)]
pub struct Sealed {
    pub kind: ImageKind,
    pub page: u32,
    pub frames: u32,
    pub image: Snapshot<Vec<u8>>,
}

/// A body, and the share of the ledger that stands beside its frame: there is one exactly where there is the other.
#[derive(Drop)]
pub struct Held<M: TicketMark, B: Ledger> {
    pub body: PageBody,
    pub share: Option<FrameShare<B>>,
    pub mark: PhantomData<M>,
    ghost backed: { IsBacked body share },
}

impl<M: TicketMark, B: Ledger> Fits for Held<M, B> {
    ghost use Rattle.page_pool.specs.Cells.{Fitting};

    type Tag = Sealed;

    ghost fits = { λ t x. Fitting M.tells t x.body };
}

/// A page's cell: a body which readers may see where it is and a writer may change, with the page's kind beside it.
#[derive(Drop)]
pub struct PageCell<M: TicketMark, B: Ledger> {
    pub kind: ImageKind,
    pub cell: Counted<Held<M, B>>,
    ghost same: { cell.kind ≡ kind },
}
