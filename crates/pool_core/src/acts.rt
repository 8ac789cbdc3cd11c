//! What an event makes of the state.
ghost use Rattle.std.specs.Prelude.{◌≡◌, ◌≢◌, ℕ, ◌+◌, ◌<◌, ◌≤◌, ◌%◌, ◌^◌, not, [], ◌∷◌, ◌++◌, length, filter, slice_get, slice_set, IsSome, IsSomeAnd, OnOk, OnErr, IfOk, Some, None};
ghost use Rattle.std.specs.List.{list_any};
ghost use Rattle.row_image.specs.Bytes.{IsPage};
ghost use Rattle.row_image.specs.Rules.{IsAccepted};
ghost use Rattle.evict_ring.specs.Lending.{frame_with};
ghost use Rattle.page_body.specs.Bodies.{IsResident, IsResting, frame_of, image_of, installed, rested, killed};
ghost use Rattle.page_body.specs.declared.body.PageBody.{PageBody};
ghost use Rattle.pool_core.specs.Readers.{without_one};
ghost use Rattle.pool_core.specs.State.{OnPage, OnTurn};
ghost use Rattle.pool_core.specs.Enabled.{HasHeap};
ghost use Rattle.pool_core.specs.Effects.{spared, owned, put, given_ticket, kept_of, Rebases, new_page, rests_on, has_heap_page, names_page};
ghost use Rattle.pool_core.specs.Sound.{IsWhole};

use crate::event::Change;
use crate::image::Image;
use crate::readers::Readers;
use crate::state::{CorePage, CoreTurn, Mark};
use evict_ring::Frame;
use ooc_io::{OutOfMemory, Ticket};
use page_body::PageBody;
use row_image::ImageKind;
use std::alloc::Global;

/// A turn goes out, or comes home.
pub fn set_out(turns: &mut Vec<CoreTurn>, frame: u32, out: Option<u32>)
    requires { frame < length turns.old.items }
    ensures { OnTurn turns.old.items frame (λ t. turns.new.items ≡ slice_set turns.old.items frame (record t { out = out })) }
{
    turns[frame as usize].out = out;
}

/// One more claim of a reader.
pub fn read(pages: &mut Vec<CorePage>, actor: u32, page: u64) -> Result<(), OutOfMemory>
    requires { page < length pages.old.items }
    ensures read { OnOk result (OnPage pages.old.items page (λ p. pages.new.items ≡ slice_set pages.old.items page (record p { readers = p.readers ++ actor ∷ [] }))) }
    ensures unchanged { OnErr result (pages.new.items ≡ pages.old.items) }
{
    pages[page as usize].readers.add(actor)
}

/// One claim of a reader less.
pub fn leave(pages: &mut Vec<CorePage>, actor: u32, page: u64)
    requires { page < length pages.old.items }
    ensures { OnPage pages.old.items page (λ p. pages.new.items ≡ slice_set pages.old.items page (record p { readers = without_one actor p.readers })) }
{
    pages[page as usize].readers.remove_one(actor);
}

/// An actor becomes the writer.
pub fn claim(pages: &mut Vec<CorePage>, actor: u32, page: u64)
    requires { page < length pages.old.items }
    ensures { OnPage pages.old.items page (λ p. pages.new.items ≡ slice_set pages.old.items page (record p { writer = Some actor })) }
{
    pages[page as usize].writer = Some(actor);
}

/// The writer lets the body be.
pub fn keep(pages: &mut Vec<CorePage>, page: u64)
    requires { page < length pages.old.items }
    ensures { OnPage pages.old.items page (λ p. pages.new.items ≡ slice_set pages.old.items page (put p p.body)) }
{
    pages[page as usize].writer = None;
}

/// The page's life ends.
pub fn kill(pages: &mut Vec<CorePage>, page: u64)
    requires { page < length pages.old.items }
    ensures { OnPage pages.old.items page (λ p. pages.new.items ≡ slice_set pages.old.items page (put p (killed p.body))) }
{
    let p = &mut pages[page as usize];
    let _ticket = p.body.kill();
    p.writer = None;
}

/// The texts of a part of a row page are at another base.
pub fn rebase(pages: &mut Vec<CorePage>, page: u64, part: u32, base: u64)
    requires there { OnPage pages.old.items page (λ p. IsResident p.body × HasHeap p.kind (image_of p.body) part × IsPage (length (image_of p.body))
        × IsAccepted p.kind (image_of p.body) × (base % length (image_of p.body) ≡ 0)) }
    requires low { base < 2 ^ 48 }
    ensures { OnPage pages.old.items page (λ p. (body : PageBody) × Rebases p.kind part base p.body body × (pages.new.items ≡ slice_set pages.old.items page (put p body))) }
{
    let p = &mut pages[page as usize];
    rebase_body(&p.kind, &mut p.body, part, base);
    p.writer = None;
}

// The texts of a part of a row page's body are at another base.
fn rebase_body(kind: &ImageKind, body: &mut PageBody, part: u32, base: u64)
    requires resident { IsResident body.old }
    requires heap { HasHeap kind.now (image_of body.old) part }
    requires page { IsPage (length (image_of body.old)) }
    requires accepted { IsAccepted kind.now (image_of body.old) }
    requires aligned { base % length (image_of body.old) ≡ 0 }
    requires low { base < 2 ^ 48 }
    ensures { Rebases kind.now part base body.old body.new }
{
    match kind {
        ImageKind::Rows(layout) => body.rebase(layout, part, base),
        ImageKind::Heap | ImageKind::Plain => unreachable!(),
    }
}

/// The image that a page's ticket keeps goes into the spare frame of a turn, which the page then owns.
pub fn install(turns: &mut Vec<CoreTurn>, pages: &mut Vec<CorePage>, frame: u32, page: u64)
    requires turn { OnTurn turns.old.items frame (λ t. IsSomeAnd t.turn.spare (λ f.
        OnPage pages.old.items page (λ p. IsResting p.body × IsSomeAnd (kept_of p.body) (λ image. length image ≡ length f.bytes.items)))) }
    ensures { OnTurn turns.old.items frame (λ t. IsSomeAnd t.turn.spare (λ f. OnPage pages.old.items page (λ p. IsSomeAnd (kept_of p.body) (λ image.
        (turns.new.items ≡ slice_set turns.old.items frame (owned t page))
        × (pages.new.items ≡ slice_set pages.old.items page (put p (installed p.body (frame_with f image)))))))) }
{
    let mut spare = give_spare(turns, frame, page);
    let p = &mut pages[page as usize];
    copy_kept(&p.body, &mut spare);
    p.body.install(spare);
    p.writer = None;
}

// Takes the spare out of a turn, which a page then owns.
fn give_spare(turns: &mut Vec<CoreTurn>, frame: u32, page: u64) -> Frame
    requires { OnTurn turns.old.items frame (λ t. IsSome t.turn.spare) }
    ensures { OnTurn turns.old.items frame (λ t. (t.turn.spare ≡ Some result) × (turns.new.items ≡ slice_set turns.old.items frame (owned t page))) }
{
    let turn = &mut turns[frame as usize];
    turn.turn.owner = Some(page);
    match turn.turn.spare.take() {
        Some(spare) => spare,
        None => unreachable!(),
    }
}

// Copies the image that a resting body's ticket keeps into a frame.
fn copy_kept(body: &PageBody, frame: &mut Frame)
    requires { IsSomeAnd (kept_of body.now) (λ image. length image ≡ length frame.old.bytes.items) }
    ensures { IsSomeAnd (kept_of body.now) (λ image. frame.new ≡ frame_with frame.old image) }
{
    match body {
        PageBody::Resting { ticket } => ticket.copy_kept(frame.bytes_mut()),
        PageBody::Resident { .. } | PageBody::Dead { .. } => unreachable!(),
    }
}

// The ticket that a resident page without one is given when it rests.
fn given_ticket(alloc: Global, page: u64, body: &PageBody) -> Result<Option<Ticket>, OutOfMemory>
    ensures { IfOk result (λ given. given ≡ given_ticket page body.now) }
{
    match body {
        PageBody::Resident {
            frame,
            ticket: None,
        } => Ok(Some(Ticket::with_image(alloc, 0, page, &frame.bytes)?)),
        _ => Ok(None),
    }
}

/// A page's frame goes back to its turn.
pub fn rest(
    alloc: Global,
    turns: &mut Vec<CoreTurn>,
    pages: &mut Vec<CorePage>,
    page: u64,
) -> Result<(), OutOfMemory>
    requires { OnPage pages.old.items page (λ p. IsSomeAnd (frame_of p.body) (λ f. f.number < length turns.old.items)) }
    ensures rests { OnOk result (OnPage pages.old.items page (λ p. IsSomeAnd (frame_of p.body) (λ f. OnTurn turns.old.items f.number (λ t.
        (turns.new.items ≡ slice_set turns.old.items f.number (spared t f))
        × (pages.new.items ≡ slice_set pages.old.items page (put p (rested p.body (given_ticket page p.body)))))))) }
    ensures turns { OnErr result (turns.new.items ≡ turns.old.items) }
    ensures pages { OnErr result (pages.new.items ≡ pages.old.items) }
{
    let p = &mut pages[page as usize];
    let given = given_ticket(alloc, page, &p.body)?;
    let frame = p.body.rest(given);
    p.writer = None;
    take_back(turns, frame);
    Ok(())
}

// Puts a frame back into its turn.
fn take_back(turns: &mut Vec<CoreTurn>, frame: Frame)
    requires { frame.number < length turns.old.items }
    ensures { OnTurn turns.old.items frame.number (λ t. turns.new.items ≡ slice_set turns.old.items frame.number (spared t frame)) }
{
    let turn = &mut turns[frame.number as usize];
    turn.turn.spare = Some(frame);
    turn.turn.owner = None;
}

/// A new page gets an image, in the spare frame of a turn.
pub fn seal(
    turns: &mut Vec<CoreTurn>,
    pages: &mut Vec<CorePage>,
    frame: u32,
    kind: ImageKind,
    image: Image,
    heaps: [Option<u64>; 4],
) -> Result<(), OutOfMemory>
    requires { OnTurn turns.old.items frame (λ t. IsSomeAnd t.turn.spare (λ f. length image ≡ length f.bytes.items)) }
    ensures seals { OnOk result (OnTurn turns.old.items frame (λ t. IsSomeAnd t.turn.spare (λ f.
        (turns.new.items ≡ slice_set turns.old.items frame (owned t (length pages.old.items)))
        × (pages.new.items ≡ pages.old.items ++ new_page kind image heaps f ∷ [])))) }
    ensures turns { OnErr result (turns.new.items ≡ turns.old.items) }
    ensures pages { OnErr result (pages.new.items ≡ pages.old.items) }
{
    pages.reserve(1)?;
    let mut spare = give_spare(turns, frame, pages.len() as u64);
    spare.bytes_mut().copy_from_slice(image.bytes());
    let readers = Readers::new_readers(*pages.allocator());
    let body = PageBody::Resident {
        frame: spare,
        ticket: None,
    };
    let page = CorePage {
        kind,
        sealed: image,
        body,
        heaps,
        readers,
        writer: None,
    };
    match pages.push(page) {
        Ok(()) => Ok(()),
        Err(_) => unreachable!(),
    }
}

/// The marks of an actor that rest on a page go.
pub fn drop_marks(marks: &mut Vec<Mark>, pages: &[CorePage], actor: u32, page: u64)
    ensures { marks.new.items ≡ filter (λ mark. not (rests_on pages.now actor page mark)) marks.old.items }
{
    marks.retain(|mark| !rests_on(pages, actor, page, mark));
}

// Whether a mark is the actor's, and rests on a page.
#[tactic(auto, unfolding(crate::specs::Effects::rests_on))]
fn rests_on(pages: &[CorePage], actor: u32, page: u64, mark: &Mark) -> bool
    ensures { result ≡ rests_on pages.now actor page mark.now }
{
    mark.actor == actor && (mark.page == page || has_heap_page(pages, mark.page, page))
}

// Whether a page has another as a heap page.
fn has_heap_page(pages: &[CorePage], rows: u64, page: u64) -> bool
    ensures { result ≡ has_heap_page page (slice_get pages.now rows) }
{
    match pages.get(rows as usize) {
        Some(found) => names_page(&found.heaps, page),
        None => false,
    }
}

// Whether a page is named.
fn names_page(heaps: &[Option<u64>; 4], page: u64) -> bool
    ensures { result ≡ list_any (λ heap. names_page page heap) heaps.now }
{
    heaps.iter().any(|heap| is_page(*heap, page))
}

fn is_page(heap: Option<u64>, page: u64) -> bool
    ensures { result ≡ names_page page heap }
{
    heap == Some(page)
}
