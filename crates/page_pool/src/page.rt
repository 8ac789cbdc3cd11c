//! Sealed pages, and pins on them.
ghost use Rattle.std.specs.Prelude.{◌≡◌, ◌<◌, IsTrue, length};
ghost use Rattle.boxcar.specs.Table.{id_at};
ghost use Rattle.page_pool.specs.Images.{shows_frame};

use crate::cell::{Held, PageCell};
use boxcar::slot::{OnceSlot, SlotRule, Written};
use counted_slot::Claim;
use ooc_io::TicketMark;
use row_image::Damage;
use std::snapshot::Snapshot;
use std::sync::ledger::Ledger;

/// A slot may hold any value: what was written to it is told by a token.
pub struct Anything;

impl<T> SlotRule<T> for Anything {
    ghost holds = { λ _ _. Unit {0} };
}

/// Places for the cells of pages, each written once.
pub type Chunk<M, B> = Vec<OnceSlot<PageCell<M, B>, Anything>>;

/// A sealed page of a pool: where its cell is, and tokens of what was written there. It has no lifetime, and a copy takes
/// no memory.
#[derive(Drop)]
pub struct PageRef<M: TicketMark, B: Ledger> {
    pub(crate) at: usize,
    pub(crate) chunk: Written<Chunk<M, B>>,
    pub(crate) place: usize,
    pub(crate) shown: Written<PageCell<M, B>>,
    ghost within: { place < length chunk.value.items },
    ghost there: { shown.of ≡ id_at chunk.value.items place },
}

impl<M: TicketMark, B: Ledger> PageRef<M, B> {
    ghost use Rattle.page_pool.specs.Pages.{kind_of, content_of, IsSamePage};

    /// The same page.
    pub fn again(&self) -> PageRef<M, B>
        ensures { IsSamePage result self.now }
    {
        PageRef {
            at: self.at,
            chunk: self.chunk.again(),
            place: self.place,
            shown: self.shown.again(),
        }
    }
}

/// The right to read a page where it lies. It must be given back. Only contracts read the page.
pub struct Pin<'a, M: TicketMark, B: Ledger> {
    pub(crate) claim: Claim<'a, Held<M, B>>,
    pub(crate) page: Snapshot<PageRef<M, B>>,
    ghost reads: { claim.right ≡ 1 },
    ghost resident: { IsTrue (shows_frame claim.value) },
}

/// What came of a page that was to be pinned where it lies.
pub enum Hit<'a, M: TicketMark, B: Ledger> {
    Pinned(Pin<'a, M, B>),
    /// Somebody changes the page, or more read it than can be counted: the word that was found.
    Busy(u64),
    Resting,
    Dead,
}

/// What came of a page that was to be pinned, and loaded where it rests.
pub enum Load<'a, M: TicketMark, B: Ledger> {
    Pinned(Pin<'a, M, B>),
    /// Somebody reads the page or changes it: the word that was found.
    Busy(u64),
    Dead,
    /// No frame could be had: the seat's looks say why, frame by frame.
    NoFrame,
    Spill,
    Damaged(Damage),
    OutOfMemory,
}
