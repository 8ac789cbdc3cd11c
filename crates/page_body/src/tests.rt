//! Clients over a pool in memory, and a page that goes to a lane and comes back.
ghost use Rattle.std.specs.Prelude.{◌≡◌, ◌+◌, ◌<◌, ◌≤◌, ◌∷◌, [], IsTrue, IfOk, IfErr, length};
ghost use Rattle.row_image.specs.Bytes.{IsPage};
ghost use Rattle.row_image.specs.Flat.{flat};
ghost use Rattle.row_image.specs.Rules.{IsAccepted};
ghost use Rattle.row_image.specs.declared.image.ImageKind.TheVariants.{Rows, Heap};
ghost use Rattle.page_body.specs.Stands.{StandsFor};
ghost use Rattle.page_body.specs.Keeps.{Kept};
ghost use Rattle.page_body.specs.MemView.{mem_view};

use super::clients::{read_back, seal_copy, two_pages};
use super::*;
use evict_ring::Frame;
use ooc_io::{LaneFault, MemLane, Silent, SpillFailed, SpillLane, Ticket};
use row_image::{CellKind, Damage, DamageField, ImageKind, Layout, check_image};
use std::alloc::Global;
use std::test::Fail;

fn put(image: &mut [u8; 4096], place: usize, bytes: &[u8])
    requires long { length image.old ≡ 4096 }
    requires room { place + length bytes.now ≤ 4096 }
    ensures { length image.new ≡ 4096 }
{
    let image: &mut [u8] = image;
    image[place..place + bytes.len()].copy_from_slice(bytes);
}

// A heap page with one text of 13 bytes, which lies behind its 64 bytes of head.
fn heap_image() -> [u8; 4096]
    ensures { length result ≡ 4096 }
{
    let mut image = [0; 4096];
    put(&mut image, 0, &[2, 0, 0, 0, 13]);
    put(&mut image, 64, b"Kopenhagen ..");
    image
}

// One row with that text: 1 byte of mask, 8 of hash, and the cell of 16 bytes. Its part has the heap page 7 at the base
// 20480, which is the fifth page's, so the address is 20544.
fn row_image() -> [u8; 4096]
    ensures { length result ≡ 4096 }
{
    let mut image = [0; 4096];
    put(&mut image, 0, &[1, 0, 0, 0, 25, 0, 0, 0, 1, 0, 0, 0, 1]);
    put(&mut image, 36, &[1, 0, 0, 0, 7, 0, 0, 0, 0, 0, 0, 0, 0, 80]);
    put(
        &mut image,
        137,
        &[13, 0, 0, 0, b'K', b'o', b'p', b'e', 64, 80],
    );
    image
}

fn one_text() -> Layout
    ensures { result ≡ CellKind.Text ∷ [] }
{
    Layout::new_layout(&[CellKind::Text])
}

// Copies the bytes of a row page whose first part's texts were moved to where its heap page lies.
fn read_moved<P: Pages>(
    pages: &mut P,
    rows: &P::Page,
    heap: &P::Page,
    layout: &Layout,
    into: &mut [u8],
) -> Result<(), PoolFault>
    requires rows { (P.view pages.old).live rows.now }
    requires heap { (P.view pages.old).live heap.now }
    requires kind { P.terms.kind rows.now ≡ Rows layout.now }
    requires heap_kind { P.terms.kind heap.now ≡ Heap }
    requires alone { IsTrue P.terms.ends_lives → (P.view pages.old).pins (P.terms.id rows.now) ≡ 0 }
    requires room { (P.view pages.old).held + 2 ≤ (P.view pages.old).grant }
    requires long { length into.old ≡ (P.view pages.old).page_bytes }
    ensures kept { Kept (P.view pages.old) (P.view pages.new) }
{
    let heap_pin = pages.pin(heap)?;
    let base = base_of(pages.frame(&heap_pin), pages.page_bytes());
    match pages.pin_based(rows, layout, &[base, 0, 0, 0]) {
        Ok(row_pin) => {
            into.copy_from_slice(pages.bytes(&row_pin));
            pages.unpin(row_pin);
            pages.unpin(heap_pin);
            Ok(())
        }
        Err(fault) => {
            pages.unpin(heap_pin);
            Err(fault)
        }
    }
}

fn small_pool(alloc: Global) -> MemPages
    ensures page { (mem_view result).page_bytes ≡ 4096 }
    ensures grant { (mem_view result).grant ≡ 24 }
    ensures held { (mem_view result).held ≡ 0 }
{
    MemPages::new_pages(alloc, 4096, 24)
}

#[test]
fn pages_are_sealed_and_read_back(rt: HostRuntime) -> Result<(), Fail> {
    let mut pages = small_pool(rt.alloc());
    let mut first = heap_image();
    let second = [2; 4096];
    assert!(rt; two_pages(&mut pages, &mut first, &heap_image()) == Ok(true));
    assert!(rt; first.as_slice() == heap_image().as_slice());
    assert!(rt; two_pages(&mut pages, &mut first, &second) == Ok(false));
    assert_eq!(rt; pages.held(), 0);
    assert_eq!(rt; pages.grant(), 24);
    assert_eq!(rt; pages.page_bytes(), 4096);
    Ok(())
}

#[test]
fn texts_are_moved_to_where_their_heap_page_lies(rt: HostRuntime) -> Result<(), Fail> {
    let mut pages = small_pool(rt.alloc());
    let layout = one_text();
    let heap = match seal_copy(&mut pages, ImageKind::Heap, &heap_image()) {
        Ok(Some(page)) => page,
        _ => return Err(Fail::from("the heap page keeps the rules")),
    };
    let rows = match seal_copy(&mut pages, ImageKind::Rows(layout), &row_image()) {
        Ok(Some(page)) => page,
        _ => return Err(Fail::from("the row page keeps the rules")),
    };
    let mut image = [0; 4096];
    assert!(rt; read_back(&mut pages, &rows, &mut image) == Ok(()));
    assert!(rt; image.as_slice() == row_image().as_slice());
    assert!(rt; read_moved(&mut pages, &rows, &heap, &layout, &mut image) == Ok(()));
    // The heap page lies in the first frame, and its text behind 64 bytes of head.
    assert_eq!(rt; &image[145..153], [64, 0, 0, 0, 0, 0, 0, 0].as_slice());
    assert_eq!(rt; pages.held(), 0);
    pages.retire(rows);
    pages.retire(heap);
    assert_eq!(rt; pages.held(), 0);
    Ok(())
}

// A lane that tells nothing and gives back zeros.
#[derive(Drop)]
struct ZeroLane {
    written: u64,
}

impl SpillLane for ZeroLane {
    type Mark = Silent;

    ghost writes = { λ l. l.written };

    ghost faults = { λ _. 0 };

    fn write(&mut self, _image: &[u8]) -> Result<Ticket, LaneFault> {
        self.written = self.written.saturating_add(1);
        Ok(Ticket::new_ticket(0, 0))
    }

    fn read(&mut self, _ticket: &Ticket, into: &mut [u8]) -> Result<(), SpillFailed> {
        into.fill(0);
        Ok(())
    }

    fn free(&mut self, _ticket: Ticket) {}
}

// Sends the page in a frame to a lane, empties the frame, and has the page come back into it.
fn there_and_back<L: SpillLane>(
    lane: &mut L,
    kind: &ImageKind,
    frame: Frame,
) -> Result<PageBody, PoolFault>
    requires page { IsPage (length frame.bytes.items) }
    requires accepted { IsAccepted kind.now frame.bytes.items }
    ensures { IfOk result (StandsFor L.Mark.tells kind.now (flat kind.now frame.bytes.items)) }
{
    let mut body = PageBody::Resident {
        frame,
        ticket: None,
    };
    let given = ticket_for(lane, &body)?;
    let mut frame = body.rest(given);
    match &body {
        PageBody::Resting { ticket } => load_from(lane, ticket, kind, &mut frame)?,
        _ => return Err(PoolFault::OutOfMemory),
    }
    body.install(frame);
    Ok(body)
}

fn heap_sent<L: SpillLane>(alloc: Global, lane: &mut L) -> Result<PageBody, PoolFault> {
    let bytes = heap_image().to_vec(alloc)?;
    if check_image(&ImageKind::Heap, &bytes).is_err() {
        return Err(PoolFault::OutOfMemory);
    }
    there_and_back(lane, &ImageKind::Heap, Frame { number: 3, bytes })
}

#[test]
fn a_page_goes_to_a_lane_and_comes_back(rt: HostRuntime) -> Result<(), Fail> {
    let alloc = rt.alloc();
    let none = Vec::new(alloc);
    let mut lane = MemLane::new_lane(alloc, none, Vec::new(alloc));
    match heap_sent(alloc, &mut lane) {
        Ok(
            PageBody::Resident {
                frame,
                ticket: Some(_),
            },
        ) => {
            assert_eq!(rt; frame.number, 3);
            assert!(rt; frame.bytes.as_slice() == heap_image().as_slice());
        }
        _ => assert!(rt; false, "the page is in its frame, beside its ticket"),
    }
    assert_eq!(rt; lane.write_count(), 1);
    let mut lane = MemLane::new_lane(alloc, vec![in alloc; 1]?, vec![in alloc; 1]?);
    assert!(rt; heap_sent(alloc, &mut lane).is_err_and(|fault| fault == PoolFault::Spill));
    assert_eq!(rt; lane.write_count(), 0);
    assert!(rt; heap_sent(alloc, &mut lane).is_err_and(|fault| fault == PoolFault::Spill));
    assert_eq!(rt; lane.write_count(), 1);
    let damage = Damage {
        field: DamageField::Kind,
        found: 0,
        bound: 2,
    };
    let mut zeros = ZeroLane { written: 0 };
    assert!(rt;
        heap_sent(alloc, &mut zeros).is_err_and(|fault| fault == PoolFault::Damaged(damage))
    );
    Ok(())
}

#[test]
fn a_dead_page_keeps_its_frame(rt: HostRuntime) -> Result<(), Fail> {
    let alloc = rt.alloc();
    let mut body = PageBody::Resident {
        frame: Frame {
            number: 9,
            bytes: vec![in alloc; 1, 2]?,
        },
        ticket: Some(Ticket::new_ticket(0, 5)),
    };
    assert!(rt; body.kill().is_some_and(|ticket| ticket.place == 5));
    assert!(rt; body.kill().is_none());
    assert_eq!(rt; body.rest(None).number, 9);
    Ok(())
}
