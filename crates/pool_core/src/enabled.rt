//! When an event is enabled.
ghost use Rattle.std.specs.Prelude.{◌≡◌, ◌≢◌, ◌↔◌, ℕ, ◌<◌, ◌≤◌, ◌%◌, ◌^◌, [], length, get_or, slice_get, IsTrue, IsSome, IsSomeAnd, Some, None};
ghost use Rattle.std.specs.List.{Contains};
ghost use Rattle.row_image.specs.Bytes.{IsPage};
ghost use Rattle.row_image.specs.Image.{part_count, part_at, no_heap};
ghost use Rattle.row_image.specs.Rules.{IsAccepted};
ghost use Rattle.page_body.specs.Bodies.{IsResident, IsResting, frame_of, image_of};
ghost use Rattle.pool_core.specs.declared.state.CorePage.{CorePage};
ghost use Rattle.pool_core.specs.State.{State, state_of, OnPage, OnTurn, IsRows, IsHeap, IsLive, LiesAt, Reads, IsOut};
ghost use Rattle.pool_core.specs.Enabled.{HasSpare, HasHeap, NamesHeap, IsPlain, CanSeal, HoldsHeap, LooksThrough, CanLook, CanChange, Enabled};
ghost use Rattle.pool_core.specs.Sound.{IsWhole, Sound};

use crate::event::{Change, Event};
use crate::image::Image;
use crate::state::{CorePage, CoreTurn, Parts};
use page_body::PageBody;
use row_image::{ImageKind, NO_HEAP, check_image, part_count, part_of};

/// Whether the turn of a frame is at home.
pub fn is_home(turns: &[CoreTurn], frame: u32) -> bool
    ensures { IsTrue result ↔ OnTurn turns.now frame (λ t. t.out ≡ None) }
{
    match turns.get(frame as usize) {
        Some(turn) => turn.out.is_none(),
        None => false,
    }
}

/// Whether an actor has the turn of a frame out.
pub fn is_out(turns: &[CoreTurn], actor: u32, frame: u32) -> bool
    ensures { IsTrue result ↔ IsOut turns.now actor frame }
{
    match turns.get(frame as usize) {
        Some(turn) => turn.out == Some(actor),
        None => false,
    }
}

/// Whether an actor has the turn of a frame out, and its spare is there.
pub fn has_spare(turns: &[CoreTurn], actor: u32, frame: u32) -> bool
    ensures { IsTrue result ↔ HasSpare turns.now actor frame }
{
    match turns.get(frame as usize) {
        Some(turn) => turn.out == Some(actor) && turn.turn.spare.is_some(),
        None => false,
    }
}

/// Whether a page has no writer.
pub fn can_read(pages: &[CorePage], page: u64) -> bool
    ensures { IsTrue result ↔ OnPage pages.now page (λ p. p.writer ≡ None) }
{
    match pages.get(page as usize) {
        Some(found) => found.writer.is_none(),
        None => false,
    }
}

/// Whether an actor reads a page.
pub fn reads(pages: &[CorePage], actor: u32, page: u64) -> bool
    ensures { IsTrue result ↔ Reads pages.now actor page }
{
    match pages.get(page as usize) {
        Some(found) => found.readers.has(actor),
        None => false,
    }
}

/// Whether a page has neither a reader nor a writer.
pub fn can_claim(pages: &[CorePage], page: u64) -> bool
    ensures { IsTrue result ↔ OnPage pages.now page (λ p. (p.readers ≡ []) × (p.writer ≡ None)) }
{
    match pages.get(page as usize) {
        Some(found) => found.readers.is_empty() && found.writer.is_none(),
        None => false,
    }
}

fn is_rows(kind: &ImageKind) -> bool
    ensures { IsTrue result ↔ IsRows kind.now }
{
    match kind {
        ImageKind::Rows(_) => true,
        ImageKind::Heap | ImageKind::Plain => false,
    }
}

fn is_heap(kind: &ImageKind) -> bool
    ensures { IsTrue result ↔ IsHeap kind.now }
{
    match kind {
        ImageKind::Heap => true,
        ImageKind::Rows(_) | ImageKind::Plain => false,
    }
}

fn is_plain(kind: &ImageKind) -> bool
    ensures { IsTrue result ↔ IsPlain kind.now }
{
    match kind {
        ImageKind::Plain => true,
        ImageKind::Rows(_) | ImageKind::Heap => false,
    }
}

fn is_live(body: &PageBody) -> bool
    ensures { IsTrue result ↔ IsLive body.now }
{
    match body {
        PageBody::Resident { .. } | PageBody::Resting { .. } => true,
        PageBody::Dead { .. } => false,
    }
}

fn is_resting(body: &PageBody) -> bool
    ensures { IsTrue result ↔ IsResting body.now }
{
    match body {
        PageBody::Resting { .. } => true,
        PageBody::Resident { .. } | PageBody::Dead { .. } => false,
    }
}

// Whether a heap page lies at a base.
fn lies_at(bytes: u32, base: u64, body: &PageBody) -> bool
    ensures { IsTrue result ↔ LiesAt bytes base body.now }
{
    match body {
        PageBody::Resident { frame, .. } => base == u64::from(frame.number) * u64::from(bytes),
        PageBody::Resting { .. } | PageBody::Dead { .. } => false,
    }
}

// Whether the actor has the turn of the body's frame out.
fn can_rest(turns: &[CoreTurn], actor: u32, body: &PageBody) -> bool
    ensures { IsTrue result ↔ IsSomeAnd (frame_of body.now) (λ f. IsOut turns.now actor f.number) }
{
    match body {
        PageBody::Resident { frame, .. } => is_out(turns, actor, frame.number),
        PageBody::Dead { frame: Some(frame) } => is_out(turns, actor, frame.number),
        PageBody::Resting { .. } | PageBody::Dead { frame: None } => false,
    }
}

// Whether a part of an image has a heap page.
fn has_heap(kind: &ImageKind, image: &[u8], part: u32) -> bool
    requires page { IsPage (length image.now) }
    requires accepted { IsAccepted kind.now image.now }
    ensures { IsTrue result ↔ HasHeap kind.now image.now part }
{
    match kind {
        ImageKind::Rows(_) => part < part_count(image) && part_of(image, part).heap != NO_HEAP,
        ImageKind::Heap | ImageKind::Plain => false,
    }
}

// Whether the actor reads a page, which is a resident heap page at this base.
fn holds_heap(bytes: u32, pages: &[CorePage], actor: u32, base: u64, page: u64) -> bool
    ensures { IsTrue result ↔ HoldsHeap bytes pages.now actor base page }
{
    match pages.get(page as usize) {
        Some(heap) => heap.readers.has(actor) && lies_at(bytes, base, &heap.body),
        None => false,
    }
}

// Whether what is named for a part is a live heap page where the part has one, and else nothing.
fn names_heap(
    pages: &[CorePage],
    kind: &ImageKind,
    image: &[u8],
    part: u32,
    named: Option<u64>,
) -> bool
    requires page { IsPage (length image.now) }
    requires accepted { IsAccepted kind.now image.now }
    ensures { IsTrue result ↔ NamesHeap pages.now kind.now image.now part named }
{
    match named {
        None => !has_heap(kind, image, part),
        Some(page) => has_heap(kind, image, part) && is_live_heap(pages, page),
    }
}

// Whether a page is a heap page that lives.
fn is_live_heap(pages: &[CorePage], page: u64) -> bool
    ensures { IsTrue result ↔ OnPage pages.now page (λ p. IsHeap p.kind × IsLive p.body) }
{
    match pages.get(page as usize) {
        Some(found) => is_heap(&found.kind) && is_live(&found.body),
        None => false,
    }
}

// Whether the actor reads the heap pages of an image's parts, which lie at the parts' bases.
fn holds_heaps(
    bytes: u32,
    pages: &[CorePage],
    actor: u32,
    image: &[u8],
    heaps: &[Option<u64>; 4],
) -> bool
    requires page { IsPage (length image.now) }
    requires few { part_count image.now ≤ 4 }
    ensures { IsTrue result ↔ ((part : ℕ) → part < part_count image.now → (part_at image.now part).heap ≢ no_heap
        → IsSomeAnd (get_or heaps.now part None) (λ heap. HoldsHeap bytes pages.now actor (part_at image.now part).base heap)) }
{
    for part in 0..part_count(image) {
        let this = part_of(image, part);
        if this.heap != NO_HEAP
            && !holds_named(bytes, pages, actor, this.base, heaps[part as usize])
        {
            return false;
        }
    }
    true
}

// Whether the actor reads the page that is named, which is a resident heap page at this base.
fn holds_named(bytes: u32, pages: &[CorePage], actor: u32, base: u64, named: Option<u64>) -> bool
    ensures { IsTrue result ↔ IsSomeAnd named (λ heap. HoldsHeap bytes pages.now actor base heap) }
{
    match named {
        None => false,
        Some(page) => holds_heap(bytes, pages, actor, base, page),
    }
}

// Whether the image of a body is seen through by an actor.
fn sees_bases(bytes: u32, pages: &[CorePage], actor: u32, rows: &CorePage) -> bool
    requires page { IsPage bytes }
    requires whole { IsWhole bytes rows.now }
    requires rows { IsRows rows.now.kind }
    ensures { IsTrue result ↔ (IsResident rows.now.body × ((part : ℕ) → HasHeap rows.now.kind (image_of rows.now.body) part
        → IsSomeAnd (get_or rows.now.heaps part None) (λ heap. HoldsHeap bytes pages.now actor (part_at (image_of rows.now.body) part).base heap))) }
{
    match &rows.body {
        PageBody::Resident { frame, .. } => {
            holds_heaps(bytes, pages, actor, &frame.bytes, &rows.heaps)
        }
        PageBody::Resting { .. } | PageBody::Dead { .. } => false,
    }
}

// Whether an actor sees through a row page.
fn looks_through(bytes: u32, pages: &[CorePage], actor: u32, rows: &CorePage) -> bool
    requires page { IsPage bytes }
    requires whole { IsWhole bytes rows.now }
    ensures { IsTrue result ↔ LooksThrough bytes pages.now actor rows.now }
{
    rows.readers.has(actor) && is_rows(&rows.kind) && sees_bases(bytes, pages, actor, rows)
}

/// Whether an actor reads a row page and its heap pages, all resident, and each part's base is its heap page's.
pub fn can_look(bytes: u32, pages: &[CorePage], actor: u32, page: u64) -> bool
    requires page { IsPage bytes }
    requires whole { (k : ℕ) (p : CorePage) → slice_get pages.now k ≡ Some p → IsWhole bytes p }
    ensures { IsTrue result ↔ CanLook bytes pages.now actor page }
{
    match pages.get(page as usize) {
        Some(rows) => looks_through(bytes, pages, actor, rows),
        None => false,
    }
}

// Whether a part of a body's image has a heap page, and this is a base for it.
fn can_rebase(bytes: u32, p: &CorePage, part: u32, base: u64) -> bool
    requires page { IsPage bytes }
    requires whole { IsWhole bytes p.now }
    ensures { IsTrue result ↔ (IsResident p.now.body × HasHeap p.now.kind (image_of p.now.body) part × (base % bytes ≡ 0) × (base < 2 ^ 48)) }
{
    match &p.body {
        PageBody::Resident { frame, .. } => {
            has_heap(&p.kind, &frame.bytes, part)
                && base % u64::from(bytes) == 0
                && base < 0x1_0000_0000_0000
        }
        PageBody::Resting { .. } | PageBody::Dead { .. } => false,
    }
}

// Whether an actor can do this to a page that it writes.
fn can_change(bytes: u32, turns: &[CoreTurn], actor: u32, p: &CorePage, change: &Change) -> bool
    requires page { IsPage bytes }
    requires whole { IsWhole bytes p.now }
    ensures { IsTrue result ↔ CanChange bytes turns.now actor p.now change.now }
{
    match change {
        Change::Keep => true,
        Change::Install { frame } => is_resting(&p.body) && has_spare(turns, actor, *frame),
        Change::Rest => can_rest(turns, actor, &p.body),
        Change::Rebase { part, base } => can_rebase(bytes, p, *part, *base),
        Change::Kill => is_live(&p.body),
    }
}

/// Whether an actor writes a page, and can do this to it.
pub fn can_put(
    bytes: u32,
    turns: &[CoreTurn],
    pages: &[CorePage],
    actor: u32,
    page: u64,
    change: &Change,
) -> bool
    requires page { IsPage bytes }
    requires whole { (k : ℕ) (p : CorePage) → slice_get pages.now k ≡ Some p → IsWhole bytes p }
    ensures { IsTrue result ↔ OnPage pages.now page (λ p. (p.writer ≡ Some actor) × CanChange bytes turns.now actor p change.now) }
{
    match pages.get(page as usize) {
        Some(p) => p.writer == Some(actor) && can_change(bytes, turns, actor, p, change),
        None => false,
    }
}

// Whether an image has as many bytes as a page, and is accepted.
fn is_accepted(bytes: u32, kind: &ImageKind, image: &[u8]) -> bool
    requires page { IsPage bytes }
    ensures { IsTrue result ↔ ((length image.now ≡ bytes) × IsAccepted kind.now image.now) }
{
    image.len() == bytes as usize && check_image(kind, image).is_ok()
}

// Whether the heap pages named are those of the image's parts, and live.
fn names_heaps(pages: &[CorePage], kind: &ImageKind, image: &[u8], named: &[Option<u64>; 4]) -> bool
    requires page { IsPage (length image.now) }
    requires accepted { IsAccepted kind.now image.now }
    ensures { IsTrue result ↔ ((part : ℕ) → part < 4 → NamesHeap pages.now kind.now image.now part (get_or named.now part None)) }
{
    for part in 0..4 {
        if !names_heap(pages, kind, image, part, named[part as usize]) {
            return false;
        }
    }
    true
}

// Whether an actor can seal this image in a frame.
fn can_seal(
    state: &Parts,
    actor: u32,
    frame: u32,
    kind: &ImageKind,
    image: &Image,
    heaps: &[Option<u64>; 4],
) -> bool
    requires page { IsPage state.now.page }
    ensures { IsTrue result ↔ CanSeal (state_of state.now) actor frame kind.now image.now heaps.now }
{
    has_spare(&state.turns, actor, frame)
        && !is_plain(kind)
        && is_accepted(state.page, kind, image.bytes())
        && names_heaps(&state.pages, kind, image.bytes(), heaps)
}

/// Whether an event is enabled.
pub fn enabled(state: &Parts, event: &Event) -> bool
    requires page { IsPage state.now.page }
    requires whole { (k : ℕ) (p : CorePage) → slice_get state.now.pages.items k ≡ Some p → IsWhole state.now.page p }
    ensures { IsTrue result ↔ Enabled (state_of state.now) event.now }
{
    let turns = &state.turns;
    let pages = &state.pages;
    match event {
        Event::Hand { actor } => *actor < state.actors,
        Event::Take { actor, frame } => *actor < state.actors && is_home(turns, *frame),
        Event::Give { actor, frame } => *actor < state.actors && is_out(turns, *actor, *frame),
        Event::Read { actor, page } => *actor < state.actors && can_read(pages, *page),
        Event::Leave { actor, page } => *actor < state.actors && reads(pages, *actor, *page),
        Event::Claim { actor, page } => *actor < state.actors && can_claim(pages, *page),
        Event::Put {
            actor,
            page,
            change,
        } => *actor < state.actors && can_put(state.page, turns, pages, *actor, *page, change),
        Event::Seal {
            actor,
            frame,
            kind,
            image,
            heaps,
        } => *actor < state.actors && can_seal(state, *actor, *frame, kind, image, heaps),
        Event::Look { actor, page } => {
            *actor < state.actors && can_look(state.page, pages, *actor, *page)
        }
    }
}
