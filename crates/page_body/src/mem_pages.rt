//! A pool in memory, for what is written before there is another.
ghost use Rattle.std.specs.Prelude.{◌≡◌, ◌≤◌, IfOk, length};
ghost use Rattle.std.specs.List.{sum_by};
ghost use Rattle.row_image.specs.Bytes.{IsPage};
ghost use Rattle.page_body.specs.Shows.{most_frames};
ghost use Rattle.page_body.specs.PageSize.{IsPage-prop};
ghost use Rattle.page_body.specs.Slots.{uses_of};

use crate::fault::PoolFault;
use crate::mem_page::{MemPage, MemPin};
use crate::open::OpenPage;
use crate::pages::Pages;
use crate::slot::Slot;
use evict_ring::Frame;
use ooc_io::OutOfMemory;
use row_image::{ImageKind, Layout};
use std::alloc::{AllocError, Global};
use std::snapshot::Snapshot;

/// How many frames a pool can have.
const MOST_FRAMES: usize = 16777216;

/// A pool in memory: each page stays in the frame in which it was opened, and nothing is spilled. A frame of a page that
/// was discarded or retired is used up, so such a pool opens at most 16,777,216 pages.
#[derive(Drop)]
pub struct MemPages {
    alloc: Global,
    page: u32,
    grant: u32,
    held: u32,
    slots: Vec<Slot>,
    ghost page_fits: { IsPage page } by { IsPage-prop page },
    ghost least: { 24 ≤ grant },
    ghost most: { grant ≤ most_frames },
    ghost within: { held ≤ grant },
    ghost total: { held ≡ sum_by uses_of slots.items },
}

fn zero_bytes(alloc: Global, count: usize) -> Result<Vec<u8>, AllocError>
    ensures { IfOk result (λ bytes. length bytes.items ≡ count) }
{
    vec![in alloc; 0; count]
}

impl MemPages {
    ghost use Rattle.std.specs.Prelude.{Some, IsSome};
    ghost use Rattle.page_body.specs.Slots.{frame_at};
    ghost use Rattle.page_body.specs.MemView.{mem_view};

    /// A pool of pages of that many bytes, in which that many pins and open pages may be held at one time.
    pub fn new_pages(alloc: Global, page: u32, grant: u32) -> MemPages
        requires page { IsPage page }
        requires least { 24 ≤ grant }
        requires most { grant ≤ most_frames }
        ensures page { (mem_view result).page_bytes ≡ page }
        ensures grant { (mem_view result).grant ≡ grant }
        ensures held { (mem_view result).held ≡ 0 }
    {
        MemPages {
            alloc,
            page,
            grant,
            held: 0,
            slots: Vec::new(alloc),
        }
    }

    // A pin of a page, which was counted.
    fn pin_of(&self, page: &MemPage) -> MemPin
        requires { IsSome (frame_at self.now.slots.items page.now.at) }
        ensures page { result.page.value ≡ page.now }
        ensures frame { frame_at self.now.slots.items page.now.at ≡ Some result.frame.value }
    {
        let frame = self.slots[page.at as usize].frame();
        MemPin {
            at: page.at,
            page: Snapshot::of(page),
            frame: Snapshot::of(frame),
        }
    }
}

impl Pages for MemPages {
    ghost use Rattle.std.proofs.Common.{sym, subst, ◌+◌};
    ghost use Rattle.std.specs.Prelude.{◌≢◌, ◌<◌, IsTrue, IsOk, IfErr, OnOk, OnErr};
    ghost use Rattle.row_image.specs.Flat.{flat};
    ghost use Rattle.row_image.specs.Rules.{IsAccepted};
    ghost use Rattle.row_image.specs.declared.image.ImageKind.TheVariants.{Rows, Plain};
    ghost use Rattle.page_body.specs.Keeps.{Steady, SameHeld, OnePin, OneOpen, LiveOn, ValidOn};
    ghost use Rattle.page_body.specs.Shows.{IsOpen, Shows, IsNew, AreBases, IsBased};
    ghost use Rattle.page_body.specs.Refusals.{ReadFails};
    ghost use Rattle.page_body.specs.Slots.{pins_at, opens_at};
    ghost use Rattle.page_body.specs.MemView.{mem_view};
    ghost use Rattle.page_body.specs.SlotLaws.{mem_terms, all_among, pin_counts, pin_lives, pin_shows, pages_apart, pages_long, never};

    type Page = MemPage;

    type Pin = MemPin;

    ghost terms = { mem_terms };

    ghost view = { mem_view };

    fn page_bytes(&self) -> u32 {
        self.page
    }

    fn grant(&self) -> u32 {
        self.grant
    }

    fn held(&self) -> u32 {
        self.held
    }

    fn open(&mut self, kind: ImageKind) -> Result<OpenPage, PoolFault> {
        if self.slots.len() >= MOST_FRAMES {
            return Err(PoolFault::OutOfMemory);
        }
        let number = self.slots.len() as u32;
        let bytes = zero_bytes(self.alloc, self.page as usize)?;
        self.slots.push(Slot::Open)?;
        self.held += 1;
        Ok(OpenPage {
            frame: Frame { number, bytes },
            kind,
        })
    }

    fn open_bytes<'a>(&self, page: &'a mut OpenPage) -> &'a mut [u8] {
        page.bytes_mut()
    }

    fn open_frame(&self, page: &OpenPage) -> u32 {
        page.frame.number
    }

    fn discard(&mut self, page: OpenPage) {
        self.slots[page.frame.number as usize] = Slot::Gone;
        self.held -= 1;
    }

    // It isn't refused.
    fn seal(&mut self, page: OpenPage) -> Result<MemPage, (OpenPage, OutOfMemory)>
        requires own { IsOpen (mem_view self.old) page }
        requires accepted { IsAccepted page.kind page.frame.bytes.items }
        requires sealable { page.kind ≢ Plain }
        ensures new { IfOk result (IsNew mem_terms (mem_view self.old) (mem_view self.new)) }
        ensures kind { IfOk result (λ sealed. mem_terms.kind sealed ≡ page.kind) }
        ensures content { IfOk result (λ sealed. mem_terms.content sealed ≡ flat page.kind page.frame.bytes.items) }
        ensures counted { OnOk result (OneOpen page.frame.number (mem_view self.new) (mem_view self.old)) }
        ensures back { IfErr result (λ e. e.0 ≡ page) }
        ensures refused { OnErr result (SameHeld (mem_view self.old) (mem_view self.new)) }
        ensures steady { Steady (mem_view self.old) (mem_view self.new) }
        ensures lives { LiveOn (mem_view self.old) (mem_view self.new) }
        ensures pins { ValidOn (mem_view self.old) (mem_view self.new) }
        ensures sure { IsOk result }
    {
        let sealed = MemPage {
            at: page.frame.number,
            seal: Snapshot::of(&page),
        };
        let seal = Snapshot::of(&page);
        let OpenPage { frame, kind: _ } = page;
        self.slots[sealed.at as usize] = Slot::Sealed {
            frame,
            pins: 0,
            seal,
        };
        self.held -= 1;
        Ok(sealed)
    }

    // It isn't refused.
    fn pin(&mut self, page: &MemPage) -> Result<MemPin, PoolFault>
        requires live { (mem_view self.old).live page.now }
        requires room { (mem_view self.old).held < (mem_view self.old).grant }
        ensures valid { IfOk result (mem_view self.new).valid }
        ensures shows { IfOk result (Shows mem_terms (mem_view self.old).page_bytes page.now) }
        ensures counted { OnOk result (OnePin (mem_terms.id page.now) (mem_view self.old) (mem_view self.new)) }
        ensures refused { OnErr result (SameHeld (mem_view self.old) (mem_view self.new)) }
        ensures cause { IfErr result (ReadFails mem_terms.told (mem_terms.kind page.now) (mem_view self.old).page_bytes (mem_view self.old).faults (mem_view self.new).faults) }
        ensures steady { Steady (mem_view self.old) (mem_view self.new) }
        ensures lives { LiveOn (mem_view self.old) (mem_view self.new) }
        ensures pins { ValidOn (mem_view self.old) (mem_view self.new) }
        ensures sure { IsOk result }
    {
        self.slots[page.at as usize].hold();
        self.held += 1;
        Ok(self.pin_of(page))
    }

    // It isn't refused.
    fn pin_based(
        &mut self,
        page: &MemPage,
        layout: &Layout,
        bases: &[u64],
    ) -> Result<MemPin, PoolFault>
        requires live { (mem_view self.old).live page.now }
        requires kind { mem_terms.kind page.now ≡ Rows layout.now }
        requires alone { IsTrue mem_terms.ends_lives → (mem_view self.old).pins (mem_terms.id page.now) ≡ 0 }
        requires room { (mem_view self.old).held < (mem_view self.old).grant }
        requires bases { AreBases (mem_view self.old).page_bytes bases.now }
        ensures valid { IfOk result (mem_view self.new).valid }
        ensures shows { IfOk result (Shows mem_terms (mem_view self.old).page_bytes page.now) }
        ensures based { IfOk result (λ pin. IsBased (mem_terms.image pin) bases.now) }
        ensures counted { OnOk result (OnePin (mem_terms.id page.now) (mem_view self.old) (mem_view self.new)) }
        ensures refused { OnErr result (SameHeld (mem_view self.old) (mem_view self.new)) }
        ensures cause { IfErr result (ReadFails mem_terms.told (mem_terms.kind page.now) (mem_view self.old).page_bytes (mem_view self.old).faults (mem_view self.new).faults) }
        ensures steady { Steady (mem_view self.old) (mem_view self.new) }
        ensures lives { LiveOn (mem_view self.old) (mem_view self.new) }
        ensures pins { ValidOn (mem_view self.old) (mem_view self.new) }
        ensures sure { IsOk result }
    {
        self.slots[page.at as usize].hold_at(layout, bases);
        self.held += 1;
        Ok(self.pin_of(page))
    }

    fn unpin(&mut self, pin: MemPin) {
        self.slots[pin.at as usize].release();
        self.held -= 1;
    }

    fn bytes<'a>(&'a self, pin: &'a MemPin) -> &'a [u8] {
        let frame = self.slots[pin.at as usize].frame();
        &frame.bytes
    }

    fn frame(&self, pin: &MemPin) -> u32 {
        let frame = self.slots[pin.at as usize].frame();
        frame.number
    }

    fn retire(&mut self, page: MemPage) {
        self.slots[page.at as usize] = Slot::Gone;
    }

    ghost sized = { λ s. s.page_fits };

    ghost granted = { λ s. (s.least, s.most, s.within) };

    ghost among_held = { λ s x y. subst (λ z. pins_at s.slots.items x + opens_at s.slots.items y ≤ z) (sym s.total) (all_among s.slots.items x y) };

    ghost pinned = { λ s q v. pin_counts s.page s.slots.items q v };

    ghost pinned_live = { λ s q v. pin_lives s.page s.slots.items q v };

    ghost shown = { λ s q v. pin_shows s.page s.slots.items q v };

    ghost apart = { λ s p q kinds _ v w rows heap. pages_apart s.page s.slots.items p q kinds v w rows heap };

    ghost long = { λ s p v. pages_long s.page s.page_fits.least s.slots.items p v };

    ghost written = { λ s spills. never spills };
}
