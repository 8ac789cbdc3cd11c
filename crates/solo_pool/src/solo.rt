//! A pool of pages for one thread, over a lane that is lent.
ghost use Rattle.std.specs.Prelude.{◌≡◌, ◌≢◌, ◌<◌, ◌≤◌, IfOk, OnOk, OnErr, IfErr, IsTrue};
ghost use Rattle.ooc_io.specs.Counts.{raised};
ghost use Rattle.row_image.specs.Rules.{IsAccepted};
ghost use Rattle.row_image.specs.declared.image.ImageKind.TheVariants.{Rows};
ghost use Rattle.page_body.specs.Shows.{AreBases, IsBased};

use crate::page::{SoloPage, SoloPin};
use crate::solo_tables::SoloTables;
use ooc_io::{OutOfMemory, SpillLane};
use page_body::{OpenPage, Pages, PoolFault};
use row_image::{ImageKind, Layout};

/// A pool of pages for one thread: tables, and a lane that is lent. It has no memory of its own and no ghost field, so that
/// who lends the lane knows it again when the pool is let go.
#[derive(Drop)]
pub struct Solo<'a, L: SpillLane> {
    tables: &'a mut SoloTables<L>,
    lane: &'a mut L,
}

impl<'a, L: SpillLane> Solo<'a, L> {
    ghost use Rattle.solo_pool.specs.View.{pool_view, sealed_in, tables_under, lane_under, name_of_tables, name_of_lane};

    /// The pool of tables and a lane.
    pub fn over(tables: &'a mut SoloTables<L>, lane: &'a mut L) -> Solo<'a, L>
        ensures same_lane { name_of_lane result ≡ lane.entry.ghost_name }
        ensures lane { lane_under result ≡ lane.old }
        ensures same_tables { name_of_tables result ≡ tables.entry.ghost_name }
        ensures tables { tables_under result ≡ tables.old }
    {
        Solo { tables, lane }
    }

    /// No page is written twice.
    pub fn pages_are_written_once(&self)
        ensures { (pool_view self.now).wrote ≤ sealed_in self.now }
    {
        let tables = &*self.tables;
        tables.pages_are_written_once();
    }
}

impl<'a, L: SpillLane> Pages for Solo<'a, L> {
    ghost use Rattle.page_body.specs.Keeps.{Steady, SameHeld, OnePin, OneOpen, LiveOn, OthersLiveOn, ValidOn, PinnedOn};
    ghost use Rattle.page_body.specs.Shows.{IsOpen, Shows, IsNew};
    ghost use Rattle.page_body.specs.Refusals.{ReadFails, RoomFails};
    ghost use Rattle.row_image.specs.Flat.{flat};
    ghost use Rattle.row_image.specs.declared.image.ImageKind.TheVariants.{Plain};
    ghost use Rattle.solo_pool.specs.View.{pool_view, sealed_in};
    ghost use Rattle.solo_pool.specs.Views.{solo_terms};
    ghost use Rattle.solo_pool.specs.Laws.{all_held, pin_counts, pin_shows, pages_apart, live_long};
    ghost use Rattle.solo_pool.specs.SpillLaws.{were_written};

    type Page = SoloPage;

    type Pin = SoloPin;

    ghost terms = { solo_terms L.Mark.tells };

    ghost view = { λ s. pool_view s };

    fn page_bytes(&self) -> u32 {
        self.tables.page_bytes()
    }

    fn grant(&self) -> u32 {
        self.tables.frame_count()
    }

    fn held(&self) -> u32 {
        self.tables.held_count()
    }

    fn open(&mut self, kind: ImageKind) -> Result<OpenPage, PoolFault>
        requires room { (pool_view self.old).held < (pool_view self.old).grant }
        ensures kind { IfOk result (λ page. page.kind ≡ kind) }
        ensures page { IfOk result (IsOpen (pool_view self.new)) }
        ensures alone { IfOk result (λ page. (pool_view self.old).opens page.frame.number ≡ 0) }
        ensures counted { IfOk result (λ page. OneOpen page.frame.number (pool_view self.old) (pool_view self.new)) }
        ensures refused { OnErr result (SameHeld (pool_view self.old) (pool_view self.new)) }
        ensures cause { IfErr result (RoomFails (pool_view self.old).faults (pool_view self.new).faults) }
        ensures steady { Steady (pool_view self.old) (pool_view self.new) }
        ensures lives { LiveOn (pool_view self.old) (pool_view self.new) }
        ensures pins { ValidOn (pool_view self.old) (pool_view self.new) }
        ensures sealed { sealed_in self.new ≡ sealed_in self.old }
    {
        let tables = &mut *self.tables;
        let lane = &mut *self.lane;
        tables.open_page(lane, kind)
    }

    fn open_bytes<'b>(&self, page: &'b mut OpenPage) -> &'b mut [u8] {
        page.bytes_mut()
    }

    fn open_frame(&self, page: &OpenPage) -> u32 {
        page.frame.number
    }

    fn discard(&mut self, page: OpenPage)
        requires { IsOpen (pool_view self.old) page }
        ensures counted { OneOpen page.frame.number (pool_view self.new) (pool_view self.old) }
        ensures steady { Steady (pool_view self.old) (pool_view self.new) }
        ensures lives { LiveOn (pool_view self.old) (pool_view self.new) }
        ensures pins { ValidOn (pool_view self.old) (pool_view self.new) }
        ensures sealed { sealed_in self.new ≡ sealed_in self.old }
    {
        let OpenPage { frame, kind: _ } = page;
        let tables = &mut *self.tables;
        tables.give(frame);
    }

    fn seal(&mut self, page: OpenPage) -> Result<SoloPage, (OpenPage, OutOfMemory)>
        requires own { IsOpen (pool_view self.old) page }
        requires accepted { IsAccepted page.kind page.frame.bytes.items }
        requires sealable { page.kind ≢ Plain }
        ensures new { IfOk result (IsNew (solo_terms L.Mark.tells) (pool_view self.old) (pool_view self.new)) }
        ensures kind { IfOk result (λ sealed. (solo_terms L.Mark.tells).kind sealed ≡ page.kind) }
        ensures content { IfOk result (λ sealed. (solo_terms L.Mark.tells).content sealed ≡ flat page.kind page.frame.bytes.items) }
        ensures counted { OnOk result (OneOpen page.frame.number (pool_view self.new) (pool_view self.old)) }
        ensures back { IfErr result (λ e. e.0 ≡ page) }
        ensures refused { OnErr result (SameHeld (pool_view self.old) (pool_view self.new)) }
        ensures steady { Steady (pool_view self.old) (pool_view self.new) }
        ensures lives { LiveOn (pool_view self.old) (pool_view self.new) }
        ensures pins { ValidOn (pool_view self.old) (pool_view self.new) }
        ensures sealed { OnOk result (sealed_in self.new ≡ raised (sealed_in self.old)) }
        ensures unsealed { OnErr result (sealed_in self.new ≡ sealed_in self.old) }
    {
        let tables = &mut *self.tables;
        tables.seal_page(page)
    }

    fn pin(&mut self, page: &SoloPage) -> Result<SoloPin, PoolFault>
        requires live { (pool_view self.old).live page.now }
        requires room { (pool_view self.old).held < (pool_view self.old).grant }
        ensures valid { IfOk result (pool_view self.new).valid }
        ensures shows { IfOk result (Shows (solo_terms L.Mark.tells) (pool_view self.old).page_bytes page.now) }
        ensures counted { OnOk result (OnePin ((solo_terms L.Mark.tells).id page.now) (pool_view self.old) (pool_view self.new)) }
        ensures refused { OnErr result (SameHeld (pool_view self.old) (pool_view self.new)) }
        ensures cause { IfErr result (ReadFails (solo_terms L.Mark.tells).told ((solo_terms L.Mark.tells).kind page.now) (pool_view self.old).page_bytes (pool_view self.old).faults (pool_view self.new).faults) }
        ensures steady { Steady (pool_view self.old) (pool_view self.new) }
        ensures lives { LiveOn (pool_view self.old) (pool_view self.new) }
        ensures pins { ValidOn (pool_view self.old) (pool_view self.new) }
        ensures sealed { sealed_in self.new ≡ sealed_in self.old }
    {
        let tables = &mut *self.tables;
        let lane = &mut *self.lane;
        tables.pin_page(lane, page)
    }

    fn pin_based(
        &mut self,
        page: &SoloPage,
        layout: &Layout,
        bases: &[u64],
    ) -> Result<SoloPin, PoolFault>
        requires live { (pool_view self.old).live page.now }
        requires kind { (solo_terms L.Mark.tells).kind page.now ≡ Rows layout.now }
        requires alone { IsTrue (solo_terms L.Mark.tells).ends_lives → (pool_view self.old).pins ((solo_terms L.Mark.tells).id page.now) ≡ 0 }
        requires room { (pool_view self.old).held < (pool_view self.old).grant }
        requires bases { AreBases (pool_view self.old).page_bytes bases.now }
        ensures valid { IfOk result (pool_view self.new).valid }
        ensures shows { IfOk result (Shows (solo_terms L.Mark.tells) (pool_view self.old).page_bytes page.now) }
        ensures based { IfOk result (λ pin. IsBased ((solo_terms L.Mark.tells).image pin) bases.now) }
        ensures counted { OnOk result (OnePin ((solo_terms L.Mark.tells).id page.now) (pool_view self.old) (pool_view self.new)) }
        ensures refused { OnErr result (SameHeld (pool_view self.old) (pool_view self.new)) }
        ensures cause { IfErr result (ReadFails (solo_terms L.Mark.tells).told ((solo_terms L.Mark.tells).kind page.now) (pool_view self.old).page_bytes (pool_view self.old).faults (pool_view self.new).faults) }
        ensures steady { Steady (pool_view self.old) (pool_view self.new) }
        ensures lives { LiveOn (pool_view self.old) (pool_view self.new) }
        ensures pins { ValidOn (pool_view self.old) (pool_view self.new) }
        ensures sealed { sealed_in self.new ≡ sealed_in self.old }
    {
        let tables = &mut *self.tables;
        let lane = &mut *self.lane;
        tables.pin_page_based(lane, page, layout, bases)
    }

    fn unpin(&mut self, pin: SoloPin)
        requires { (pool_view self.old).valid pin }
        ensures counted { OnePin ((solo_terms L.Mark.tells).id ((solo_terms L.Mark.tells).under pin)) (pool_view self.new) (pool_view self.old) }
        ensures steady { Steady (pool_view self.old) (pool_view self.new) }
        ensures lives { LiveOn (pool_view self.old) (pool_view self.new) }
        ensures pins { PinnedOn (solo_terms L.Mark.tells) (pool_view self.old) (pool_view self.new) }
        ensures sealed { sealed_in self.new ≡ sealed_in self.old }
    {
        let tables = &mut *self.tables;
        tables.release(pin.at);
    }

    fn bytes<'b>(&'b self, pin: &'b SoloPin) -> &'b [u8] {
        self.tables.bytes_of(pin)
    }

    fn frame(&self, pin: &SoloPin) -> u32 {
        self.tables.frame_of(pin)
    }

    fn retire(&mut self, page: SoloPage)
        requires live { (pool_view self.old).live page }
        requires alone { IsTrue (solo_terms L.Mark.tells).ends_lives → (pool_view self.old).pins ((solo_terms L.Mark.tells).id page) ≡ 0 }
        ensures ended { IsTrue (solo_terms L.Mark.tells).ends_lives → (pool_view self.new).live page → ⊥ }
        ensures held { SameHeld (pool_view self.old) (pool_view self.new) }
        ensures steady { Steady (pool_view self.old) (pool_view self.new) }
        ensures lives { OthersLiveOn (solo_terms L.Mark.tells) page (pool_view self.old) (pool_view self.new) }
        ensures pins { ValidOn (pool_view self.old) (pool_view self.new) }
        ensures sealed { sealed_in self.new ≡ sealed_in self.old }
    {
        let tables = &mut *self.tables;
        let lane = &mut *self.lane;
        tables.retire_page(lane, page);
    }

    ghost sized = { λ s. s.tables.now.page_fits };

    ghost granted = { λ s. (s.tables.now.least, s.tables.now.most, s.tables.now.within) };

    ghost among_held = { λ s x y. all_held s.tables.now x y };

    ghost pinned = { λ s q v. pin_counts L.Mark.tells s.tables.now q v };

    ghost pinned_live = { λ s q v. v.live };

    ghost shown = { λ s q v. pin_shows L.Mark.tells s.tables.now q v };

    ghost apart = { λ s p q kinds _ v w rows heap. pages_apart L.Mark.tells s.tables.now p q kinds v w rows heap };

    ghost long = { λ s p v. live_long L.Mark.tells s.tables.now p v };

    ghost written = { λ s _. were_written L.Mark.tells s.lane.ghost_name (L.faults s.lane.now) (L.writes s.lane.now) s.tables.now };
}
