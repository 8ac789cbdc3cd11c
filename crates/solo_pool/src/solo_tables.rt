//! The tables of a pool for one thread: its pages, and where each frame is.
ghost use Rattle.std.specs.Prelude.{false, ◌≡◌, ◌≢◌, ◌<◌, ◌≤◌, ◌+◌, ◌-◌, ◌^◌, ℕ, Some, None, sum, length, slice_index, slice_get, IfOk, OnOk, OnErr, IfErr, IsSome, IfSome, IsTrue, ◌↔◌, vec_len, vec_capacity, ◌++◌, ◌∷◌, []};
ghost use Rattle.ooc_io.specs.Counts.{raised};
ghost use Rattle.row_image.specs.Bytes.{IsPage};
ghost use Rattle.row_image.specs.Rules.{IsAccepted};
ghost use Rattle.row_image.specs.declared.image.ImageKind.TheVariants.{Rows};
ghost use Rattle.page_body.specs.PageSize.{IsPage-prop};
ghost use Rattle.page_body.specs.Shows.{most_frames, AreBases, IsBased};
ghost use Rattle.solo_pool.specs.Sound.{Sound};
ghost use Rattle.solo_pool.specs.Writes.{Paid};
ghost use Rattle.solo_pool.specs.Weights.{shown, is_alive};

use crate::entry::{Entry, Place};
use crate::moves::move_body;
use crate::page::{SoloPage, SoloPin};
use crate::slots::{find_idle, idle_counts, next_spare, note, spare_numbers, spare_places};
use crate::spill::{load, spill};
use evict_ring::Frame;
use ooc_io::{OutOfMemory, SpillLane, Ticket};
use page_body::{OpenPage, PageBody, PoolFault};
use row_image::{ImageKind, Layout};
use std::alloc::Global;
use std::marker::PhantomData;
use std::mem;
use std::snapshot::Snapshot;

/// The pages and the frames of a pool for one thread, over lanes of one type. A page that no frame has any more rests on
/// the lane, to which it was written once. A page takes a spare frame first, and where there is none, frames are emptied in
/// the order in which a hand goes round over them. `vacant` and `spare` are notes of entries and of frames to be used again:
/// what they name is tested, so nothing rests on them.
#[derive(Drop)]
pub struct SoloTables<L: SpillLane> {
    page: u32,
    entries: Vec<Entry>,
    vacant: Vec<usize>,
    spare: Vec<usize>,
    places: Vec<Place>,
    uses: Vec<u32>,
    hand: usize,
    held: u32,
    sealed: u64,
    wrote: u64,
    of: PhantomData<L>,
    ghost page_fits: { IsPage page } by { IsPage-prop page },
    ghost least: { 24 ≤ length places.items },
    ghost most: { length places.items ≤ most_frames },
    ghost within: { held ≤ length places.items },
    ghost sound: { Sound page entries.items places.items uses.items held },
    ghost paid: { Paid entries.items sealed wrote },
}

impl<L: SpillLane> SoloTables<L> {
    ghost use Rattle.page_body.specs.Refusals.{RoomFails, ReadFails};
    ghost use Rattle.solo_pool.specs.Steps.{Opens, Closes, Pins, Unpins, Moves, Firm, Same, Ends};
    ghost use Rattle.number_bags.specs.Bags.{one_of};
    ghost use Rattle.page_body.specs.Keeps.{OnePin, OneOpen, SameHeld, LiveOn, OthersLiveOn, ValidOn};
    ghost use Rattle.page_body.specs.Shows.{IsOpen, Shows, IsNew};
    ghost use Rattle.row_image.specs.Flat.{flat};
    ghost use Rattle.solo_pool.specs.View.{held_view, sealed_of, wrote_of};
    ghost use Rattle.solo_pool.specs.LaneCounts.{LaneCounts};
    ghost use Rattle.solo_pool.specs.Views.{LiveAt, RestsAt, PutStands, VacantAt, solo_terms};
    ghost use Rattle.solo_pool.specs.Opened.{IsOpened};
    ghost use Rattle.solo_pool.specs.State.{frame_at, opens_at, spare_in, pins_at};
    ghost use Rattle.solo_pool.specs.declared.entry.Place.TheVariants.{Owned, Open};
    ghost use Rattle.solo_pool.specs.declared.page.SoloPage.{SoloPage};

    /// That many frames of that many bytes each, and no page.
    pub fn open_tables(alloc: Global, page: u32, frames: u32) -> Result<SoloTables<L>, OutOfMemory>
        requires page { IsPage page }
        requires least { 24 ≤ frames }
        requires most { frames ≤ most_frames }
        ensures opened { IfOk result (λ tables. IsOpened page frames (held_view L.Mark.tells tables)) }
        ensures sealed { IfOk result (λ tables. sealed_of tables ≡ 0) }
    {
        let places = spare_places(alloc, page, frames)?;
        let uses = idle_counts(alloc, frames)?;
        let spare = spare_numbers(alloc, frames)?;
        Ok(SoloTables {
            page,
            entries: Vec::new(alloc),
            vacant: Vec::new(alloc),
            spare,
            places,
            uses,
            hand: 0,
            held: 0,
            sealed: 0,
            wrote: 0,
            of: PhantomData,
        })
    }

    /// No page is written twice.
    pub fn pages_are_written_once(&self)
        ensures { wrote_of self.now ≤ sealed_of self.now }
    {}

    pub(crate) fn page_bytes(&self) -> u32
        ensures is { result ≡ self.now.page }
        ensures page { IsPage result }
    {
        self.page
    }

    // How many frames there are.
    pub(crate) fn frame_count(&self) -> u32
        ensures is { result ≡ length self.now.places.items }
        ensures least { 24 ≤ result }
        ensures most { result ≤ most_frames }
    {
        self.places.len() as u32
    }

    // How many pins and open pages there are.
    pub(crate) fn held_count(&self) -> u32
        ensures { result ≡ self.now.held }
    {
        self.held
    }

    // Takes a spare frame out of its slot, as an open one.
    fn take_spare(&mut self, i: usize) -> Frame
        requires within { i < length self.old.places.items }
        requires spare { IsSome (spare_in (slice_get self.old.places.items i)) }
        requires room { self.old.held < length self.old.places.items }
        ensures number { result.number ≡ i }
        ensures full { length result.bytes.items ≡ self.old.page }
        ensures opens { Opens L.Mark.tells i self.old self.new }
        ensures held { self.new.held ≡ self.old.held + 1 }
        ensures firm { Firm self.old self.new }
        ensures wrote { self.new.wrote ≡ self.old.wrote }
        ensures count { self.new.sealed ≡ self.old.sealed }
        ensures places { length self.new.places.items ≡ length self.old.places.items }
        ensures entries { self.new.entries.items ≡ self.old.entries.items }
    {
        match mem::replace(&mut self.places[i], Place::Open) {
            Place::Spare(frame) => {
                self.uses[i] = 1;
                self.held += 1;
                frame
            }
            Place::Owned(_) => unreachable!(),
            Place::Open => unreachable!(),
        }
    }

    // Puts an open frame back.
    pub(crate) fn give(&mut self, frame: Frame)
        requires own { 0 < opens_at self.old.places.items frame.number }
        requires full { length frame.bytes.items ≡ self.old.page }
        ensures closes { Closes L.Mark.tells frame.number self.old self.new }
        ensures held { self.new.held + 1 ≡ self.old.held }
        ensures firm { Firm self.old self.new }
        ensures wrote { self.new.wrote ≡ self.old.wrote }
        ensures count { self.new.sealed ≡ self.old.sealed }
        ensures places { length self.new.places.items ≡ length self.old.places.items }
        ensures entries { self.new.entries.items ≡ self.old.entries.items }
    {
        let i = frame.number as usize;
        self.places[i] = Place::Spare(frame);
        self.uses[i] = 0;
        self.held -= 1;
        note(&mut self.spare, i);
    }

    // Puts a pin on a resident page.
    fn hold(&mut self, at: usize)
        requires resident { IsSome (frame_at self.old.entries.items at) }
        requires room { self.old.held < length self.old.places.items }
        ensures pins { Pins L.Mark.tells at self.old self.new }
        ensures held { self.new.held ≡ self.old.held + 1 }
        ensures firm { Firm self.old self.new }
        ensures wrote { self.new.wrote ≡ self.old.wrote }
        ensures count { self.new.sealed ≡ self.old.sealed }
        ensures places { self.new.places.items ≡ self.old.places.items }
        ensures entries { self.new.entries.items ≡ self.old.entries.items }
    {
        if let PageBody::Resident { frame, .. } = &self.entries[at].body {
            let i = frame.number as usize;
            self.uses[i] += 1;
            self.held += 1;
        } else {
            unreachable!()
        }
    }

    // Takes a pin off.
    pub(crate) fn release(&mut self, at: usize)
        requires pinned { 0 < pins_at self.old.entries.items self.old.uses.items at }
        ensures unpins { Unpins L.Mark.tells at self.old self.new }
        ensures held { self.new.held + 1 ≡ self.old.held }
        ensures firm { Firm self.old self.new }
        ensures wrote { self.new.wrote ≡ self.old.wrote }
        ensures count { self.new.sealed ≡ self.old.sealed }
        ensures places { self.new.places.items ≡ self.old.places.items }
        ensures entries { self.new.entries.items ≡ self.old.entries.items }
    {
        if let PageBody::Resident { frame, .. } = &self.entries[at].body {
            let i = frame.number as usize;
            self.uses[i] -= 1;
            self.held -= 1;
        } else {
            unreachable!()
        }
    }

    // Empties the frame of a slot that nobody uses, which is an open one then.
    fn evict(&mut self, lane: &mut L, i: usize, at: usize) -> Result<Frame, PoolFault>
        requires place { slice_get self.old.places.items i ≡ Some (Owned at) }
        requires idle { slice_index self.old.uses.items i ≡ 0 }
        requires room { self.old.held < length self.old.places.items }
        ensures number { IfOk result (λ f. f.number ≡ i) }
        ensures full { IfOk result (λ f. length f.bytes.items ≡ self.old.page) }
        ensures opens { OnOk result (Opens L.Mark.tells i self.old self.new) }
        ensures same { OnErr result (Same self.old self.new) }
        ensures held { OnOk result (self.new.held ≡ self.old.held + 1) }
        ensures firm { Firm self.old self.new }
        ensures counts { LaneCounts (L.faults lane.old) (L.faults lane.new) (L.writes lane.old) (L.writes lane.new) self.old.wrote self.new.wrote }
        ensures count { self.new.sealed ≡ self.old.sealed }
        ensures cause { IfErr result (RoomFails (L.faults lane.old) (L.faults lane.new)) }
        ensures places { length self.new.places.items ≡ length self.old.places.items }
        ensures others { (x : ℕ) → frame_at self.old.entries.items x ≡ None → slice_get self.new.entries.items x ≡ slice_get self.old.entries.items x }
    {
        let given = spill(lane, &mut self.wrote, &self.entries[at].body)?;
        let frame = self.entries[at].body.rest(given);
        self.places[i] = Place::Open;
        self.uses[i] = 1;
        self.held += 1;
        Ok(frame)
    }

    // A frame for a page, as an open one.
    fn take_frame(&mut self, lane: &mut L) -> Result<Frame, PoolFault>
        requires room { self.old.held < length self.old.places.items }
        ensures number { IfOk result (λ f. f.number < length self.old.places.items) }
        ensures full { IfOk result (λ f. length f.bytes.items ≡ self.old.page) }
        ensures new { IfOk result (λ f. opens_at self.old.places.items f.number ≡ 0) }
        ensures opens { IfOk result (λ f. Opens L.Mark.tells f.number self.old self.new) }
        ensures same { OnErr result (Same self.old self.new) }
        ensures held { OnOk result (self.new.held ≡ self.old.held + 1) }
        ensures firm { Firm self.old self.new }
        ensures counts { LaneCounts (L.faults lane.old) (L.faults lane.new) (L.writes lane.old) (L.writes lane.new) self.old.wrote self.new.wrote }
        ensures count { self.new.sealed ≡ self.old.sealed }
        ensures cause { IfErr result (RoomFails (L.faults lane.old) (L.faults lane.new)) }
        ensures places { length self.new.places.items ≡ length self.old.places.items }
        ensures others { (x : ℕ) → frame_at self.old.entries.items x ≡ None → slice_get self.new.entries.items x ≡ slice_get self.old.entries.items x }
    {
        if let Some(i) = next_spare(&mut self.spare, &self.places) {
            return Ok(self.take_spare(i));
        }
        let i = find_idle(&self.uses, self.hand);
        self.hand = i + 1;
        let owner = match &self.places[i] {
            Place::Owned(at) => Some(*at),
            _ => None,
        };
        match owner {
            Some(at) => self.evict(lane, i, at),
            None => Ok(self.take_spare(i)),
        }
    }

    fn is_resident(&self, at: usize) -> bool
        requires { at < length self.now.entries.items }
        ensures { IsTrue result ↔ IsSome (frame_at self.now.entries.items at) }
    {
        matches!(self.entries[at].body, PageBody::Resident { .. })
    }

    // Puts a page that rests into an open frame, with a pin on it.
    fn put_page(&mut self, at: usize, frame: Frame)
        requires within { at < length self.old.entries.items }
        requires rests { frame_at self.old.entries.items at ≡ None }
        requires body { RestsAt self.old.entries.items at }
        requires own { 0 < opens_at self.old.places.items frame.number }
        requires full { length frame.bytes.items ≡ self.old.page }
        requires stands { PutStands L.Mark.tells self.old.entries.items at frame }
        ensures pins { Pins L.Mark.tells at self.old self.new }
        ensures opens { (y : ℕ) → opens_at self.old.places.items y ≡ opens_at self.new.places.items y + one_of frame.number y }
        ensures there { IsSome (frame_at self.new.entries.items at) }
        ensures held { self.new.held ≡ self.old.held }
        ensures firm { Firm self.old self.new }
        ensures wrote { self.new.wrote ≡ self.old.wrote }
        ensures count { self.new.sealed ≡ self.old.sealed }
        ensures places { length self.new.places.items ≡ length self.old.places.items }
    {
        let i = frame.number as usize;
        self.entries[at].body.install(frame);
        self.places[i] = Place::Owned(at);
    }

    // Brings a page in that rests, with a pin on it.
    fn load(&mut self, lane: &mut L, page: &SoloPage) -> Result<(), PoolFault>
        requires live { LiveAt L.Mark.tells self.old.page self.old.entries.items page.now }
        requires rests { frame_at self.old.entries.items page.now.at ≡ None }
        requires room { self.old.held < length self.old.places.items }
        ensures pinned { OnOk result (OnePin page.now.at (held_view L.Mark.tells self.old) (held_view L.Mark.tells self.new)) }
        ensures there { OnOk result (IsSome (frame_at self.new.entries.items page.now.at)) }
        ensures refused { OnErr result (SameHeld (held_view L.Mark.tells self.old) (held_view L.Mark.tells self.new)) }
        ensures cause { IfErr result (ReadFails L.Mark.tells page.now.seal.value.kind self.old.page (L.faults lane.old) (L.faults lane.new)) }
        ensures lives { LiveOn (held_view L.Mark.tells self.old) (held_view L.Mark.tells self.new) }
        ensures valid { ValidOn (held_view L.Mark.tells self.old) (held_view L.Mark.tells self.new) }
        ensures firm { Firm self.old self.new }
        ensures counts { LaneCounts (L.faults lane.old) (L.faults lane.new) (L.writes lane.old) (L.writes lane.new) self.old.wrote self.new.wrote }
        ensures count { self.new.sealed ≡ self.old.sealed }
        ensures places { length self.new.places.items ≡ length self.old.places.items }
    {
        let at = page.at;
        let mut frame = self.take_frame(lane)?;
        let kind = self.entries[at].kind;
        let loaded = match &self.entries[at].body {
            PageBody::Resting { ticket } => load(lane, ticket, &kind, &mut frame),
            _ => unreachable!(),
        };
        match loaded {
            Ok(()) => {
                self.put_page(at, frame);
                Ok(())
            }
            Err(fault) => {
                self.give(frame);
                Err(fault)
            }
        }
    }

    // Makes a page resident, with a pin on it.
    fn reach(&mut self, lane: &mut L, page: &SoloPage) -> Result<(), PoolFault>
        requires live { LiveAt L.Mark.tells self.old.page self.old.entries.items page.now }
        requires within { page.now.at < length self.old.entries.items }
        requires room { self.old.held < length self.old.places.items }
        ensures pinned { OnOk result (OnePin page.now.at (held_view L.Mark.tells self.old) (held_view L.Mark.tells self.new)) }
        ensures there { OnOk result (IsSome (frame_at self.new.entries.items page.now.at)) }
        ensures refused { OnErr result (SameHeld (held_view L.Mark.tells self.old) (held_view L.Mark.tells self.new)) }
        ensures cause { IfErr result (ReadFails L.Mark.tells page.now.seal.value.kind self.old.page (L.faults lane.old) (L.faults lane.new)) }
        ensures lives { LiveOn (held_view L.Mark.tells self.old) (held_view L.Mark.tells self.new) }
        ensures valid { ValidOn (held_view L.Mark.tells self.old) (held_view L.Mark.tells self.new) }
        ensures firm { Firm self.old self.new }
        ensures counts { LaneCounts (L.faults lane.old) (L.faults lane.new) (L.writes lane.old) (L.writes lane.new) self.old.wrote self.new.wrote }
        ensures count { self.new.sealed ≡ self.old.sealed }
        ensures places { length self.new.places.items ≡ length self.old.places.items }
    {
        if self.is_resident(page.at) {
            self.hold(page.at);
            Ok(())
        } else {
            self.load(lane, page)
        }
    }

    // Makes a page of an open frame.
    fn seal_new(&mut self, page: OpenPage) -> SoloPage
        requires room { vec_len self.old.entries + 1 ≤ vec_capacity self.old.entries }
        requires own { 0 < opens_at self.old.places.items page.frame.number }
        requires full { length page.frame.bytes.items ≡ self.old.page }
        requires accepted { IsAccepted page.kind page.frame.bytes.items }
        ensures closes { Closes L.Mark.tells page.frame.number self.old self.new }
        ensures at { result.at ≡ length self.old.entries.items }
        ensures seal { result.seal.value ≡ page }
        ensures differs { (other : SoloPage) → LiveAt L.Mark.tells self.old.page self.old.entries.items other → other.at ≢ result.at }
        ensures live { LiveAt L.Mark.tells self.old.page self.new.entries.items result }
        ensures unpinned { pins_at self.new.entries.items self.new.uses.items result.at ≡ 0 }
        ensures held { self.new.held + 1 ≡ self.old.held }
        ensures firm { Firm self.old self.new }
        ensures wrote { self.new.wrote ≡ self.old.wrote }
        ensures count { self.new.sealed ≡ raised self.old.sealed }
        ensures places { length self.new.places.items ≡ length self.old.places.items }
    {
        let at = self.entries.len();
        let sealed = SoloPage {
            at,
            seal: Snapshot::of(&page),
        };
        let seal = Snapshot::of(&page);
        let OpenPage { frame, kind } = page;
        let i = frame.number as usize;
        let entry = Entry {
            kind,
            body: PageBody::Resident {
                frame,
                ticket: None,
            },
            seal,
        };
        push_entry(&mut self.entries, entry);
        self.places[i] = Place::Owned(at);
        self.uses[i] = 0;
        self.held -= 1;
        self.sealed = self.sealed.saturating_add(1);
        sealed
    }

    // Makes a page of an open frame, in the place of one whose life ended.
    fn seal_over(&mut self, at: usize, page: OpenPage) -> SoloPage
        requires vacant { VacantAt self.old.entries.items at }
        requires own { 0 < opens_at self.old.places.items page.frame.number }
        requires full { length page.frame.bytes.items ≡ self.old.page }
        requires accepted { IsAccepted page.kind page.frame.bytes.items }
        ensures closes { Closes L.Mark.tells page.frame.number self.old self.new }
        ensures at { result.at ≡ at }
        ensures seal { result.seal.value ≡ page }
        ensures differs { (other : SoloPage) → LiveAt L.Mark.tells self.old.page self.old.entries.items other → other.at ≢ result.at }
        ensures live { LiveAt L.Mark.tells self.old.page self.new.entries.items result }
        ensures unpinned { pins_at self.new.entries.items self.new.uses.items result.at ≡ 0 }
        ensures held { self.new.held + 1 ≡ self.old.held }
        ensures firm { Firm self.old self.new }
        ensures wrote { self.new.wrote ≡ self.old.wrote }
        ensures count { self.new.sealed ≡ raised self.old.sealed }
        ensures places { length self.new.places.items ≡ length self.old.places.items }
    {
        let sealed = SoloPage {
            at,
            seal: Snapshot::of(&page),
        };
        let seal = Snapshot::of(&page);
        let OpenPage { frame, kind } = page;
        let i = frame.number as usize;
        let entry = Entry {
            kind,
            body: PageBody::Resident {
                frame,
                ticket: None,
            },
            seal,
        };
        self.entries[at] = entry;
        self.places[i] = Place::Owned(at);
        self.uses[i] = 0;
        self.held -= 1;
        self.sealed = self.sealed.saturating_add(1);
        sealed
    }

    // The place of a page whose life ended, if one is noted.
    fn next_vacant(&mut self) -> Option<usize>
        ensures vacant { IfSome result (VacantAt self.new.entries.items) }
        ensures same { Same self.old self.new }
        ensures firm { Firm self.old self.new }
        ensures wrote { self.new.wrote ≡ self.old.wrote }
        ensures count { self.new.sealed ≡ self.old.sealed }
    {
        let at = self.vacant.pop()?;
        if at < self.entries.len() && is_dead(&self.entries[at].body) {
            Some(at)
        } else {
            None
        }
    }

    // Ends a page's life.
    fn end_page(&mut self, lane: &mut L, at: usize)
        requires within { at < length self.old.entries.items }
        requires free { pins_at self.old.entries.items self.old.uses.items at ≡ 0 }
        ensures ends { Ends L.Mark.tells at self.old self.new }
        ensures held { self.new.held ≡ self.old.held }
        ensures firm { Firm self.old self.new }
        ensures counts { LaneCounts (L.faults lane.old) (L.faults lane.new) (L.writes lane.old) (L.writes lane.new) self.old.wrote self.new.wrote }
        ensures count { self.new.sealed ≡ self.old.sealed }
        ensures places { length self.new.places.items ≡ length self.old.places.items }
    {
        let (ticket, frame) = end_body(&mut self.entries[at].body);
        if let Some(ticket) = ticket {
            lane.free(ticket);
        }
        if let Some(frame) = frame {
            let i = frame.number as usize;
            self.places[i] = Place::Spare(frame);
            note(&mut self.spare, i);
        }
    }

    // Moves the texts of a resident row page that has one pin.
    fn move_texts(&mut self, page: &SoloPage, layout: &Layout, bases: &[u64])
        requires resident { IsSome (frame_at self.old.entries.items page.now.at) }
        requires live { LiveAt L.Mark.tells self.old.page self.old.entries.items page.now }
        requires kind { page.now.seal.value.kind ≡ Rows layout.now }
        requires bases { AreBases self.old.page bases.now }
        ensures moves { Moves L.Mark.tells page.now.at self.old self.new }
        ensures there { IsSome (frame_at self.new.entries.items page.now.at) }
        ensures based { IfSome (frame_at self.new.entries.items page.now.at) (λ f. IsBased f.bytes.items bases.now) }
        ensures held { self.new.held ≡ self.old.held }
        ensures firm { Firm self.old self.new }
        ensures wrote { self.new.wrote ≡ self.old.wrote }
        ensures count { self.new.sealed ≡ self.old.sealed }
        ensures places { self.new.places.items ≡ self.old.places.items }
    {
        move_body(layout, &mut self.entries[page.at].body, bases);
    }

    // The pin of a page that was just held.
    fn pin_of(&self, page: &SoloPage) -> SoloPin
        requires { IsSome (frame_at self.now.entries.items page.now.at) }
        ensures at { result.at ≡ page.now.at }
        ensures page { result.page.value ≡ page.now }
        ensures frame { frame_at self.now.entries.items page.now.at ≡ Some result.frame.value }
    {
        if let PageBody::Resident { frame, .. } = &self.entries[page.at].body {
            SoloPin {
                at: page.at,
                page: Snapshot::of(page),
                frame: Snapshot::of(frame),
            }
        } else {
            unreachable!()
        }
    }

    // Opens a page.
    pub(crate) fn open_page(&mut self, lane: &mut L, kind: ImageKind) -> Result<OpenPage, PoolFault>
        requires room { self.old.held < length self.old.places.items }
        ensures kind { IfOk result (λ page. page.kind ≡ kind) }
        ensures page { IfOk result (IsOpen (held_view L.Mark.tells self.new)) }
        ensures alone { IfOk result (λ page. (held_view L.Mark.tells self.old).opens page.frame.number ≡ 0) }
        ensures counted { IfOk result (λ page. OneOpen page.frame.number (held_view L.Mark.tells self.old) (held_view L.Mark.tells self.new)) }
        ensures refused { OnErr result (SameHeld (held_view L.Mark.tells self.old) (held_view L.Mark.tells self.new)) }
        ensures cause { IfErr result (RoomFails (L.faults lane.old) (L.faults lane.new)) }
        ensures lives { LiveOn (held_view L.Mark.tells self.old) (held_view L.Mark.tells self.new) }
        ensures pins { ValidOn (held_view L.Mark.tells self.old) (held_view L.Mark.tells self.new) }
        ensures firm { Firm self.old self.new }
        ensures places { length self.new.places.items ≡ length self.old.places.items }
        ensures counts { LaneCounts (L.faults lane.old) (L.faults lane.new) (L.writes lane.old) (L.writes lane.new) self.old.wrote self.new.wrote }
        ensures sealed { self.new.sealed ≡ self.old.sealed }
    {
        let frame = self.take_frame(lane)?;
        Ok(OpenPage { frame, kind })
    }

    // Makes a page of an open one.
    pub(crate) fn seal_page(&mut self, page: OpenPage) -> Result<SoloPage, (OpenPage, OutOfMemory)>
        requires own { IsOpen (held_view L.Mark.tells self.old) page }
        requires accepted { IsAccepted page.kind page.frame.bytes.items }
        ensures new { IfOk result (IsNew (solo_terms L.Mark.tells) (held_view L.Mark.tells self.old) (held_view L.Mark.tells self.new)) }
        ensures kind { IfOk result (λ sealed. (solo_terms L.Mark.tells).kind sealed ≡ page.kind) }
        ensures content { IfOk result (λ sealed. (solo_terms L.Mark.tells).content sealed ≡ flat page.kind page.frame.bytes.items) }
        ensures counted { OnOk result (OneOpen page.frame.number (held_view L.Mark.tells self.new) (held_view L.Mark.tells self.old)) }
        ensures back { IfErr result (λ e. e.0 ≡ page) }
        ensures refused { OnErr result (SameHeld (held_view L.Mark.tells self.old) (held_view L.Mark.tells self.new)) }
        ensures lives { LiveOn (held_view L.Mark.tells self.old) (held_view L.Mark.tells self.new) }
        ensures pins { ValidOn (held_view L.Mark.tells self.old) (held_view L.Mark.tells self.new) }
        ensures firm { Firm self.old self.new }
        ensures places { length self.new.places.items ≡ length self.old.places.items }
        ensures wrote { self.new.wrote ≡ self.old.wrote }
        ensures sealed { OnOk result (self.new.sealed ≡ raised self.old.sealed) }
        ensures unsealed { OnErr result (self.new.sealed ≡ self.old.sealed) }
    {
        if let Some(at) = self.next_vacant() {
            return Ok(self.seal_over(at, page));
        }
        if self.entries.reserve(1).is_err() {
            return Err((page, OutOfMemory));
        }
        Ok(self.seal_new(page))
    }

    // Pins a page.
    pub(crate) fn pin_page(&mut self, lane: &mut L, page: &SoloPage) -> Result<SoloPin, PoolFault>
        requires live { (held_view L.Mark.tells self.old).live page.now }
        requires room { self.old.held < length self.old.places.items }
        ensures valid { IfOk result (held_view L.Mark.tells self.new).valid }
        ensures shows { IfOk result (Shows (solo_terms L.Mark.tells) self.old.page page.now) }
        ensures counted { OnOk result (OnePin page.now.at (held_view L.Mark.tells self.old) (held_view L.Mark.tells self.new)) }
        ensures refused { OnErr result (SameHeld (held_view L.Mark.tells self.old) (held_view L.Mark.tells self.new)) }
        ensures cause { IfErr result (ReadFails L.Mark.tells page.now.seal.value.kind self.old.page (L.faults lane.old) (L.faults lane.new)) }
        ensures lives { LiveOn (held_view L.Mark.tells self.old) (held_view L.Mark.tells self.new) }
        ensures pins { ValidOn (held_view L.Mark.tells self.old) (held_view L.Mark.tells self.new) }
        ensures firm { Firm self.old self.new }
        ensures places { length self.new.places.items ≡ length self.old.places.items }
        ensures counts { LaneCounts (L.faults lane.old) (L.faults lane.new) (L.writes lane.old) (L.writes lane.new) self.old.wrote self.new.wrote }
        ensures sealed { self.new.sealed ≡ self.old.sealed }
    {
        self.reach(lane, page)?;
        Ok(self.pin_of(page))
    }

    // Pins a row page whose texts are moved to these bases.
    pub(crate) fn pin_page_based(
        &mut self,
        lane: &mut L,
        page: &SoloPage,
        layout: &Layout,
        bases: &[u64],
    ) -> Result<SoloPin, PoolFault>
        requires live { (held_view L.Mark.tells self.old).live page.now }
        requires kind { (solo_terms L.Mark.tells).kind page.now ≡ Rows layout.now }
        requires alone { (held_view L.Mark.tells self.old).pins page.now.at ≡ 0 }
        requires room { self.old.held < length self.old.places.items }
        requires bases { AreBases self.old.page bases.now }
        ensures valid { IfOk result (held_view L.Mark.tells self.new).valid }
        ensures shows { IfOk result (Shows (solo_terms L.Mark.tells) self.old.page page.now) }
        ensures based { IfOk result (λ pin. IsBased ((solo_terms L.Mark.tells).image pin) bases.now) }
        ensures counted { OnOk result (OnePin page.now.at (held_view L.Mark.tells self.old) (held_view L.Mark.tells self.new)) }
        ensures refused { OnErr result (SameHeld (held_view L.Mark.tells self.old) (held_view L.Mark.tells self.new)) }
        ensures cause { IfErr result (ReadFails L.Mark.tells page.now.seal.value.kind self.old.page (L.faults lane.old) (L.faults lane.new)) }
        ensures lives { LiveOn (held_view L.Mark.tells self.old) (held_view L.Mark.tells self.new) }
        ensures pins { ValidOn (held_view L.Mark.tells self.old) (held_view L.Mark.tells self.new) }
        ensures firm { Firm self.old self.new }
        ensures places { length self.new.places.items ≡ length self.old.places.items }
        ensures counts { LaneCounts (L.faults lane.old) (L.faults lane.new) (L.writes lane.old) (L.writes lane.new) self.old.wrote self.new.wrote }
        ensures sealed { self.new.sealed ≡ self.old.sealed }
    {
        self.reach(lane, page)?;
        self.move_texts(page, layout, bases);
        Ok(self.pin_of(page))
    }

    // The bytes under a pin.
    pub(crate) fn bytes_of<'a>(&'a self, pin: &'a SoloPin) -> &'a [u8]
        requires { (held_view L.Mark.tells self.now).valid pin.now }
        ensures { result.now ≡ (solo_terms L.Mark.tells).image pin.now }
    {
        if let PageBody::Resident { frame, .. } = &self.entries[pin.at].body {
            &frame.bytes
        } else {
            unreachable!()
        }
    }

    // The number of the frame under a pin.
    pub(crate) fn frame_of(&self, pin: &SoloPin) -> u32
        requires { (held_view L.Mark.tells self.now).valid pin.now }
        ensures { result ≡ (solo_terms L.Mark.tells).frame pin.now }
    {
        if let PageBody::Resident { frame, .. } = &self.entries[pin.at].body {
            frame.number
        } else {
            unreachable!()
        }
    }

    // Ends the life of a page without a pin.
    pub(crate) fn retire_page(&mut self, lane: &mut L, page: SoloPage)
        requires live { (held_view L.Mark.tells self.old).live page }
        requires alone { (held_view L.Mark.tells self.old).pins page.at ≡ 0 }
        ensures ended { (held_view L.Mark.tells self.new).live page → ⊥ }
        ensures held { SameHeld (held_view L.Mark.tells self.old) (held_view L.Mark.tells self.new) }
        ensures lives { OthersLiveOn (solo_terms L.Mark.tells) page (held_view L.Mark.tells self.old) (held_view L.Mark.tells self.new) }
        ensures pins { ValidOn (held_view L.Mark.tells self.old) (held_view L.Mark.tells self.new) }
        ensures firm { Firm self.old self.new }
        ensures places { length self.new.places.items ≡ length self.old.places.items }
        ensures counts { LaneCounts (L.faults lane.old) (L.faults lane.new) (L.writes lane.old) (L.writes lane.new) self.old.wrote self.new.wrote }
        ensures sealed { self.new.sealed ≡ self.old.sealed }
    {
        self.end_page(lane, page.at);
        note(&mut self.vacant, page.at);
    }
}

fn is_dead(body: &PageBody) -> bool
    ensures { IsTrue result → is_alive body.now ≡ false }
{
    matches!(body, PageBody::Dead { .. })
}

fn push_entry(entries: &mut Vec<Entry>, entry: Entry)
    requires { vec_len entries.old + 1 ≤ vec_capacity entries.old }
    ensures { entries.new.items ≡ entries.old.items ++ (entry ∷ []) }
{
    entries.push(entry).unwrap();
}

// Ends the life of a body, which keeps no frame.
fn end_body(body: &mut PageBody) -> (Option<Ticket>, Option<Frame>)
    ensures gone { shown body.new ≡ None }
    ensures dead { is_alive body.new ≡ false }
    ensures frame { result.1 ≡ shown body.old }
{
    let resident = matches!(body, PageBody::Resident { .. });
    let ticket = body.kill();
    if resident {
        let frame = body.rest(None);
        (ticket, Some(frame))
    } else {
        (ticket, None)
    }
}
