//! The cells of a pool's pages. They lie in chunks, and a chunk is filled from its front by one seat, so that no thread
//! waits for a place. A later chunk is larger.
ghost use Rattle.std.specs.Prelude.{◌≡◌, ◌<◌, ◌≤◌, IfOk, IfErr, IfSome, length};
ghost use Rattle.row_image.specs.Bytes.{IsPage};
ghost use Rattle.row_image.specs.Flat.{flat};
ghost use Rattle.row_image.specs.Rules.{IsAccepted};
ghost use Rattle.page_body.specs.Shows.{most_frames};
ghost use Rattle.page_body.specs.PageSize.{IsPage-prop};
ghost use Rattle.page_pool.specs.Cells.{IsFrame, IsSized, sealed_content};

use crate::cell::{Held, PageCell, Sealed};
use crate::claims::{IDLE, nothing};
use crate::page::{Anything, Chunk, PageRef};
use crate::share::FrameShare;
use boxcar::slot::{OnceSlot, Written};
use boxcar::tag::Tag;
use counted_slot::{Counted, FREE, TAKEN};
use ooc_io::{OutOfMemory, TicketMark};
use page_body::{OpenPage, PageBody};
use row_image::ImageKind;
use std::alloc::{AllocError, Global};
use std::marker::PhantomData;
use std::snapshot::Snapshot;
use std::sync::ledger::Ledger;

// The places of the first chunks. Each 64 chunks have twice as many places as those before.
const FIRST_PLACES: usize = 64;

/// The cells of a pool, in chunks that are made as pages are sealed.
#[derive(Drop)]
pub struct Cells<M: TicketMark, B: Ledger> {
    pub alloc: Global,
    pub page: u32,
    pub frames: u32,
    pub chunks: Vec<OnceSlot<Chunk<M, B>, Anything>>,
    ghost fits: { IsPage page } by { IsPage-prop page },
    ghost most: { frames ≤ most_frames },
}

/// A chunk that one seat fills, and how many of its places are used.
#[derive(Drop)]
pub struct Room<M: TicketMark, B: Ledger> {
    pub at: usize,
    pub chunk: Written<Chunk<M, B>>,
    pub used: usize,
}

/// A place for a cell.
#[derive(Drop)]
pub struct Spot<M: TicketMark, B: Ledger> {
    pub at: usize,
    pub chunk: Written<Chunk<M, B>>,
    pub place: usize,
    ghost within: { place < length chunk.value.items },
}

// So many empty places.
fn new_chunk<M: TicketMark, B: Ledger>(
    alloc: Global,
    count: usize,
) -> Result<Chunk<M, B>, AllocError> {
    let mut chunk = Vec::with_capacity(alloc, count)?;
    for _ in 0..count {
        chunk.push(OnceSlot::new(&Tag::empty()))?;
    }
    Ok(chunk)
}

// How many places a chunk has.
fn places_in(at: usize) -> usize {
    let doublings = at / 64;
    if doublings < 24 {
        FIRST_PLACES << doublings
    } else {
        FIRST_PLACES << 24
    }
}

// A cell with its kind beside it.
fn with_kind<M: TicketMark, B: Ledger>(
    kind: &ImageKind,
    cell: Counted<Held<M, B>>,
) -> PageCell<M, B>
    requires { cell.kind ≡ kind.now }
    ensures kind { result.kind ≡ kind.now }
    ensures cell { result.cell ≡ cell }
{
    PageCell { kind: *kind, cell }
}

// With what a page is sealed.
fn sealed_tag(page: &OpenPage, page_bytes: u32, frames: u32) -> Sealed
    requires page { IsPage page_bytes }
    requires most { frames ≤ most_frames }
    requires long { length page.now.frame.bytes.items ≡ page_bytes }
    requires accepted { IsAccepted page.now.kind page.now.frame.bytes.items }
    ensures sized { IsSized result }
    ensures page { result.page ≡ page_bytes }
    ensures frames { result.frames ≡ frames }
    ensures kind { result.kind ≡ page.now.kind }
    ensures content { sealed_content result ≡ flat page.now.kind page.now.frame.bytes.items }
{
    Sealed {
        kind: page.kind,
        page: page_bytes,
        frames,
        image: Snapshot::of(&page.frame.bytes),
    }
}

impl<M: TicketMark, B: Ledger> Cells<M, B> {
    ghost use Rattle.page_pool.specs.Pages.{IsCellOf};
    ghost use Rattle.page_pool.specs.Rooms.{IsRoomOf, IsSpotOf};

    /// The cell of a page.
    pub fn cell<'a>(&'a self, page: &PageRef<M, B>) -> &'a PageCell<M, B>
        requires { IsCellOf self.now page.now }
        ensures { result.now ≡ page.now.shown.value }
    {
        let chunk = self.chunks[page.at].value(&page.chunk);
        chunk[page.place].value(&page.shown)
    }

    // A chunk that nobody else fills. Where all are taken, no memory is left for pages.
    fn new_room(&self) -> Result<Room<M, B>, OutOfMemory>
        ensures { IfOk result (IsRoomOf self.now) }
    {
        for at in 0..self.chunks.len() {
            if self.chunks[at].get().is_none() {
                let chunk = new_chunk(self.alloc, places_in(at))?;
                if let Ok(chunk) = self.chunks[at].set_written(chunk) {
                    return Ok(Room { at, chunk, used: 0 });
                }
            }
        }
        Err(OutOfMemory)
    }

    /// A place for a cell, in the chunk that this seat fills or in a new one.
    pub fn spot(&self, room: &mut Option<Room<M, B>>) -> Result<Spot<M, B>, OutOfMemory>
        requires room { IfSome room.old (IsRoomOf self.now) }
        ensures room { IfSome room.new (IsRoomOf self.now) }
        ensures spot { IfOk result (IsSpotOf self.now) }
    {
        if let Some(Room { at, chunk, used }) = room {
            let place = *used;
            if place < self.chunks[*at].value(chunk).len() {
                *used += 1;
                return Ok(Spot {
                    at: *at,
                    chunk: chunk.again(),
                    place,
                });
            }
        }
        let fresh = self.new_room()?;
        if self.chunks[fresh.at].value(&fresh.chunk).is_empty() {
            return Err(OutOfMemory);
        }
        let spot = Spot {
            at: fresh.at,
            chunk: fresh.chunk.again(),
            place: 0,
        };
        *room = Some(Room {
            at: fresh.at,
            chunk: fresh.chunk,
            used: 1,
        });
        Ok(spot)
    }
}

impl<M: TicketMark, B: Ledger> Cells<M, B> {
    ghost use Rattle.page_pool.specs.Pages.{IsCellOf, kind_of, content_of};
    ghost use Rattle.page_pool.specs.Rooms.{IsSpotOf};

    /// Makes a page of an open one. Its place is taken first, by an empty cell, so that after a refusal the open page is
    /// what it was.
    pub fn make_page(
        &self,
        spot: Spot<M, B>,
        page: OpenPage,
        share: FrameShare<B>,
    ) -> Result<PageRef<M, B>, (OpenPage, FrameShare<B>)>
        requires spot { IsSpotOf self.now spot }
        requires frame { IsFrame self.now.page self.now.frames page.frame }
        requires accepted { IsAccepted page.kind page.frame.bytes.items }
        ensures page { IfOk result (IsCellOf self.now) }
        ensures kind { IfOk result (λ p. kind_of p ≡ page.kind) }
        ensures content { IfOk result (λ p. content_of p ≡ flat page.kind page.frame.bytes.items) }
        ensures back { IfErr result (λ e. e.0 ≡ page) }
    {
        let tag = sealed_tag(&page, self.page, self.frames);
        let cell = Counted::new(nothing(), &tag);
        let Spot { at, chunk, place } = spot;
        let cells = self.chunks[at].value(&chunk);
        let shown = match cells[place].set_written(with_kind(&page.kind, cell)) {
            Ok(shown) => shown,
            Err(_) => return Err((page, share)),
        };
        // A new cell's word is FREE, and readers come only where it is PRESENT.
        let (found, claim) = cells[place].value(&shown).cell.turn(FREE, TAKEN);
        if found != FREE {
            claim.done();
            return Err((page, share));
        }
        let OpenPage { frame, kind: _ } = page;
        let held = Held {
            body: PageBody::Resident {
                frame,
                ticket: None,
            },
            share: Some(share),
            mark: PhantomData,
        };
        claim.put(held, IDLE);
        Ok(PageRef {
            at,
            chunk,
            place,
            shown,
        })
    }
}
