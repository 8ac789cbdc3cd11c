//! The pool, and the seats at which threads use it.
ghost use Rattle.std.specs.Prelude.{◌≡◌, ℕ};
ghost use Rattle.number_bags.specs.Bags.{times};
ghost use Rattle.page_pool.specs.Turns.{about_of};
ghost use Rattle.page_pool.specs.Numbers.{numbers_of};

use crate::cells::{Cells, Room};
use crate::owner::{Owner, Turns};
use crate::share::FrameShare;
use evict_ring::{Ring, RingSeat};
use ooc_io::TicketMark;
use std::sync::ledger::{Ledger, Total};

/// A pool of frames, and of pages that lie in them or at lanes. Any number of threads use it through `&`, each with a
/// seat of its own. None of its calls waits.
#[derive(Drop)]
pub struct Pool<M: TicketMark, B: Ledger> {
    pub(crate) cells: Cells<M, B>,
    pub(crate) ring: Ring<Owner<M, B>, Turns<M, B>>,
    pub(crate) total: Total<B>,
    ghost about: { ring.about ≡ about_of cells },
    ghost turns: { ring.turns ≡ cells.frames },
    ghost book: { total.amount ≡ cells.frames },
}

/// What a search saw of a frame that it couldn't have.
#[derive(Clone, Copy)]
pub enum Seen {
    /// Its turn was out, with this seat or another.
    TurnOut,
    /// Its page was claimed: the word that was found.
    Claimed(u64),
}

/// The turn of an open page, which is out with a seat, and the share that stands beside the page's frame.
#[derive(Drop)]
pub struct OpenTurn<B: Ledger> {
    pub number: u32,
    pub share: FrameShare<B>,
}

/// What a thread uses a pool with.
#[derive(Drop)]
pub struct PoolSeat<M: TicketMark, B: Ledger> {
    pub(crate) ring: RingSeat<Owner<M, B>>,
    pub(crate) open: Vec<OpenTurn<B>>,
    pub(crate) looks: Vec<Seen>,
    pub(crate) room: Option<Room<M, B>>,
    ghost out: { (x : ℕ) → times (numbers_of open.items) x ≡ times ring.held x },
}

impl<M: TicketMark, B: Ledger> PoolSeat<M, B> {
    ghost use Rattle.page_pool.specs.View.{looks_of};

    /// What the last search that had no frame saw, one look for each frame in order.
    pub fn looks(&self) -> &[Seen]
        ensures { result.now ≡ looks_of self.now }
    {
        self.looks.as_slice()
    }
}

impl<M: TicketMark, B: Ledger> Pool<M, B> {
    ghost use Rattle.page_pool.specs.View.{page_bytes, frame_count};

    /// How many bytes a page has.
    pub fn page_bytes(&self) -> u32
        ensures { result ≡ page_bytes self.now }
    {
        self.cells.page
    }

    /// How many frames there are.
    pub fn frame_count(&self) -> u32
        ensures { result ≡ frame_count self.now }
    {
        self.cells.frames
    }
}
