//! A pool of pages, as one worker sees it.

use crate::fault::PoolFault;
use crate::open::OpenPage;
use ooc_io::OutOfMemory;
use row_image::{ImageKind, Layout};

/// A pool of pages as one worker sees it: over one thread, or beside other workers of a pool that threads share.
///
/// A page is opened, written, and sealed; from then on it is read under pins alone, until it is retired. A sealed page's
/// kind and content, and the bytes and the frame under a pin, never change, so contracts see them as functions of the
/// page and of the pin alone. What calls change is the worker's view: which pages are live, and its pins and open pages.
pub trait Pages {
    ghost use Rattle.std.specs.Prelude.{◌≡◌, ◌≢◌, ℕ, ◌+◌, ◌<◌, ◌≤◌, IsTrue, IfOk, IfErr, OnErr, OnOk, List, length};
    ghost use Rattle.row_image.specs.Bytes.{IsPage};
    ghost use Rattle.row_image.specs.Flat.{flat};
    ghost use Rattle.row_image.specs.Rules.{IsAccepted};
    ghost use Rattle.row_image.specs.declared.layout.CellKind.{CellKind};
    ghost use Rattle.row_image.specs.declared.image.ImageKind.TheVariants.{Rows, Heap, Plain};
    ghost use Rattle.page_body.specs.View.{PoolTerms, PoolView};
    ghost use Rattle.page_body.specs.Keeps.{Steady, SameHeld, OnePin, OneOpen, LiveOn, OthersLiveOn, ValidOn, PinnedOn};
    ghost use Rattle.page_body.specs.Shows.{most_frames, IsOpen, Shows, IsNew, AreBases, IsBased};
    ghost use Rattle.page_body.specs.Refusals.{ReadFails, RoomFails};
    ghost use Rattle.page_body.specs.PageLists.{WereWritten};

    /// A reference to a sealed page.
    type Page;

    /// The right to read a page where it lies. Neither a page nor a pin can be let go by generic code: a page is retired
    /// or kept, and a pin given back or kept.
    type Pin;

    /// What a page and a pin are.
    ghost terms: { PoolTerms Self.Page Self.Pin };

    /// What this worker has.
    ghost view: { Self → PoolView Self.Page Self.Pin };

    /// How many bytes a page has.
    fn page_bytes(&self) -> u32
        ensures is { result ≡ (view self.now).page_bytes }
        ensures page { IsPage result };

    /// How many pins and open pages this worker may have at one time.
    fn grant(&self) -> u32
        ensures is { result ≡ (view self.now).grant }
        ensures least { 24 ≤ result }
        ensures most { result ≤ most_frames };

    /// How many pins and open pages this worker has.
    fn held(&self) -> u32
        ensures { result ≡ (view self.now).held };

    /// Opens a page that is to be of a kind. Its bytes are what they are. No other open page of this worker lies in its
    /// frame. `Spill` comes only where the lane failed.
    fn open(&mut self, kind: ImageKind) -> Result<OpenPage, PoolFault>
        requires room { (view self.old).held < (view self.old).grant }
        ensures kind { IfOk result (λ page. page.kind ≡ kind) }
        ensures page { IfOk result (IsOpen (view self.new)) }
        ensures alone { IfOk result (λ page. (view self.old).opens page.frame.number ≡ 0) }
        ensures counted { IfOk result (λ page. OneOpen page.frame.number (view self.old) (view self.new)) }
        ensures refused { OnErr result (SameHeld (view self.old) (view self.new)) }
        ensures cause { IfErr result (RoomFails (view self.old).faults (view self.new).faults) }
        ensures steady { Steady (view self.old) (view self.new) }
        ensures lives { LiveOn (view self.old) (view self.new) }
        ensures pins { ValidOn (view self.old) (view self.new) };

    /// The bytes of an open page. To write to them take `OpenPage::bytes_mut`, whose contract says what becomes of the
    /// page.
    fn open_bytes<'a>(&self, page: &'a mut OpenPage) -> &'a mut [u8]
        requires { IsOpen (view self.now) page.old }
        ensures { result.now ≡ page.old.frame.bytes.items };

    /// The number of an open page's frame.
    fn open_frame(&self, page: &OpenPage) -> u32
        requires { IsOpen (view self.now) page.now }
        ensures { result ≡ page.now.frame.number };

    /// Gives an open page up.
    fn discard(&mut self, page: OpenPage)
        requires { IsOpen (view self.old) page }
        ensures counted { OneOpen page.frame.number (view self.new) (view self.old) }
        ensures steady { Steady (view self.old) (view self.new) }
        ensures lives { LiveOn (view self.old) (view self.new) }
        ensures pins { ValidOn (view self.old) (view self.new) };

    /// Makes a page of an open one. After a refusal the page is still open.
    fn seal(&mut self, page: OpenPage) -> Result<Self::Page, (OpenPage, OutOfMemory)>
        requires own { IsOpen (view self.old) page }
        requires accepted { IsAccepted page.kind page.frame.bytes.items }
        requires sealable { page.kind ≢ Plain }
        ensures new { IfOk result (IsNew terms (view self.old) (view self.new)) }
        ensures kind { IfOk result (λ sealed. terms.kind sealed ≡ page.kind) }
        ensures content { IfOk result (λ sealed. terms.content sealed ≡ flat page.kind page.frame.bytes.items) }
        ensures counted { OnOk result (OneOpen page.frame.number (view self.new) (view self.old)) }
        ensures back { IfErr result (λ e. e.0 ≡ page) }
        ensures refused { OnErr result (SameHeld (view self.old) (view self.new)) }
        ensures steady { Steady (view self.old) (view self.new) }
        ensures lives { LiveOn (view self.old) (view self.new) }
        ensures pins { ValidOn (view self.old) (view self.new) };

    /// Pins a page. `Spill` comes only where the lane failed, and `Damaged` where an image that was just read breaks a
    /// rule of the page's kind, which in a told pool none does.
    fn pin(&mut self, page: &Self::Page) -> Result<Self::Pin, PoolFault>
        requires live { (view self.old).live page.now }
        requires room { (view self.old).held < (view self.old).grant }
        ensures valid { IfOk result (view self.new).valid }
        ensures shows { IfOk result (Shows terms (view self.old).page_bytes page.now) }
        ensures counted { OnOk result (OnePin (terms.id page.now) (view self.old) (view self.new)) }
        ensures refused { OnErr result (SameHeld (view self.old) (view self.new)) }
        ensures cause { IfErr result (ReadFails terms.told (terms.kind page.now) (view self.old).page_bytes (view self.old).faults (view self.new).faults) }
        ensures steady { Steady (view self.old) (view self.new) }
        ensures lives { LiveOn (view self.old) (view self.new) }
        ensures pins { ValidOn (view self.old) (view self.new) };

    /// Pins a row page whose heap pages lie at these bases, one for each part that it may have: where a part has another
    /// base, its texts are moved first. Where retiring ends lives, this worker has no pin on the page; elsewhere the call
    /// waits until no worker has.
    fn pin_based(
        &mut self,
        page: &Self::Page,
        layout: &Layout,
        bases: &[u64],
    ) -> Result<Self::Pin, PoolFault>
        requires live { (view self.old).live page.now }
        requires kind { terms.kind page.now ≡ Rows layout.now }
        requires alone { IsTrue terms.ends_lives → (view self.old).pins (terms.id page.now) ≡ 0 }
        requires room { (view self.old).held < (view self.old).grant }
        requires bases { AreBases (view self.old).page_bytes bases.now }
        ensures valid { IfOk result (view self.new).valid }
        ensures shows { IfOk result (Shows terms (view self.old).page_bytes page.now) }
        ensures based { IfOk result (λ pin. IsBased (terms.image pin) bases.now) }
        ensures counted { OnOk result (OnePin (terms.id page.now) (view self.old) (view self.new)) }
        ensures refused { OnErr result (SameHeld (view self.old) (view self.new)) }
        ensures cause { IfErr result (ReadFails terms.told (terms.kind page.now) (view self.old).page_bytes (view self.old).faults (view self.new).faults) }
        ensures steady { Steady (view self.old) (view self.new) }
        ensures lives { LiveOn (view self.old) (view self.new) }
        ensures pins { ValidOn (view self.old) (view self.new) };

    /// Gives a pin back.
    fn unpin(&mut self, pin: Self::Pin)
        requires { (view self.old).valid pin }
        ensures counted { OnePin (terms.id (terms.under pin)) (view self.new) (view self.old) }
        ensures steady { Steady (view self.old) (view self.new) }
        ensures lives { LiveOn (view self.old) (view self.new) }
        ensures pins { PinnedOn terms (view self.old) (view self.new) };

    /// The bytes under a pin.
    fn bytes<'a>(&'a self, pin: &'a Self::Pin) -> &'a [u8]
        requires { (view self.now).valid pin.now }
        ensures { result.now ≡ terms.image pin.now };

    /// The number of the frame under a pin.
    fn frame(&self, pin: &Self::Pin) -> u32
        requires { (view self.now).valid pin.now }
        ensures { result ≡ terms.frame pin.now };

    /// Ends a page's life, where retiring does so in this pool; else the page is given up by its holder alone. It can't
    /// be refused.
    fn retire(&mut self, page: Self::Page)
        requires live { (view self.old).live page }
        requires alone { IsTrue terms.ends_lives → (view self.old).pins (terms.id page) ≡ 0 }
        ensures ended { IsTrue terms.ends_lives → (view self.new).live page → ⊥ }
        ensures held { SameHeld (view self.old) (view self.new) }
        ensures steady { Steady (view self.old) (view self.new) }
        ensures lives { OthersLiveOn terms page (view self.old) (view self.new) }
        ensures pins { ValidOn (view self.old) (view self.new) };

    /// A page has the length of a page.
    ghost sized: { (s : Self) → IsPage (view s).page_bytes };

    /// The grant is from 24 to the most frames that a pool can have, and this worker holds no more.
    ghost granted: { (s : Self) → (24 ≤ (view s).grant) × ((view s).grant ≤ most_frames) × ((view s).held ≤ (view s).grant) };

    /// The pins on a page and the open pages in a frame are among what is held.
    ghost among_held: { (s : Self) (x y : ℕ) → (view s).pins x + (view s).opens y ≤ (view s).held };

    /// The page under a pin of this worker is pinned.
    ghost pinned: { (s : Self) (q : Self.Pin) → (view s).valid q → 0 < (view s).pins (terms.id (terms.under q)) };

    /// The page under a pin of this worker is live.
    ghost pinned_live: { (s : Self) (q : Self.Pin) → (view s).valid q → (view s).live (terms.under q) };

    /// A pin of this worker shows its page.
    ghost shown: { (s : Self) (q : Self.Pin) → (view s).valid q → Shows terms (view s).page_bytes (terms.under q) q };

    /// A live page's content is as long as a page.
    ghost long: { (s : Self) (p : Self.Page) → (view s).live p → length (terms.content p) ≡ (view s).page_bytes };

    /// Where retiring ends lives, a row page and a heap page differ.
    ghost apart: { (s : Self) (p q : Self.Page) (kinds : List CellKind) → IsTrue terms.ends_lives → (view s).live p → (view s).live q → terms.kind p ≡ Rows kinds → terms.kind q ≡ Heap → terms.id q ≢ terms.id p };

    /// Where the pool spills, of any live pages that differ at most as many as it has frames weren't written.
    ghost written: { (s : Self) → IsTrue terms.spills → WereWritten terms (view s) };
}
