//! Runs of a core of pages of 4,096 bytes, 24 frames and 2 actors.
ghost use Rattle.std.specs.Prelude.{◌≡◌, length};

use super::*;
use row_image::{CellKind, ImageKind, Layout};
use std::alloc::Global;
use std::test::Fail;

// A page's bytes, all 0 but for those at some places.
fn image(alloc: Global, page: usize, bytes: &[(usize, u8)]) -> Result<Image, Fail> {
    let mut image = vec![in alloc; 0; page]?;
    for (place, byte) in bytes {
        if *place < image.len() {
            image[*place] = *byte;
        }
    }
    Ok(Image::new_image(image))
}

// A heap page with the text `abcdefghijklm`.
fn heap_image(alloc: Global) -> Result<Image, Fail> {
    let bytes = [
        (0, 2),
        (4, 13),
        (64, b'a'),
        (65, b'b'),
        (66, b'c'),
        (67, b'd'),
        (68, b'e'),
        (69, b'f'),
        (70, b'g'),
        (71, b'h'),
        (72, b'i'),
        (73, b'j'),
        (74, b'k'),
        (75, b'l'),
        (76, b'm'),
    ];
    image(alloc, 4096, &bytes)
}

// A row page of one text column: one row of that text, at address 64, and one part, whose heap page has base 0. A row has a mask
// of 1 byte, a hash of 8 and a cell of 16.
fn rows_image(alloc: Global) -> Result<Image, Fail> {
    let bytes = [
        (0, 1),
        (4, 25),
        (8, 1),
        (12, 1),
        (36, 1),
        (137, 13),
        (141, b'a'),
        (142, b'b'),
        (143, b'c'),
        (144, b'd'),
        (145, 64),
    ];
    image(alloc, 4096, &bytes)
}

// What an actor does to a frame or a page.
#[derive(Clone, Copy)]
enum Step {
    Hand,
    Take,
    Give,
    SealHeap,
    SealRows,
    Read,
    Leave,
    Claim,
    Install,
    Rest,
    Rebase,
    Kill,
    Look,
}

// Installs take frame 2, and a rebase moves part 0 to its base.
fn event(alloc: Global, step: (Step, u32, u32)) -> Result<Event, Fail> {
    let (what, actor, at) = step;
    let page = u64::from(at);
    match what {
        Step::Hand => Ok(Event::Hand { actor }),
        Step::Take => Ok(Event::Take { actor, frame: at }),
        Step::Give => Ok(Event::Give { actor, frame: at }),
        Step::SealHeap => seal_heap(alloc, actor, at),
        Step::SealRows => seal_rows(alloc, actor, at),
        Step::Read => Ok(Event::Read { actor, page }),
        Step::Leave => Ok(Event::Leave { actor, page }),
        Step::Claim => Ok(Event::Claim { actor, page }),
        Step::Install => Ok(put(actor, page, Change::Install { frame: 2 })),
        Step::Rest => Ok(put(actor, page, Change::Rest)),
        Step::Rebase => Ok(put(
            actor,
            page,
            Change::Rebase {
                part: 0,
                base: 8192,
            },
        )),
        Step::Kill => Ok(put(actor, page, Change::Kill)),
        Step::Look => Ok(Event::Look { actor, page }),
    }
}

fn put(actor: u32, page: u64, change: Change) -> Event {
    Event::Put {
        actor,
        page,
        change,
    }
}

fn seal_heap(alloc: Global, actor: u32, frame: u32) -> Result<Event, Fail> {
    Ok(Event::Seal {
        actor,
        frame,
        kind: ImageKind::Heap,
        image: heap_image(alloc)?,
        heaps: [None, None, None, None],
    })
}

fn seal_rows(alloc: Global, actor: u32, frame: u32) -> Result<Event, Fail> {
    Ok(Event::Seal {
        actor,
        frame,
        kind: ImageKind::Rows(Layout::new_layout(&[CellKind::Text])),
        image: rows_image(alloc)?,
        heaps: [Some(0), None, None, None],
    })
}

// Actor 0 seals the heap page in frame 0 and the row page in frame 1, reads both, and looks at the row page.
fn sealed_and_looked() -> [(Step, u32, u32); 9] {
    [
        (Step::Take, 0, 0),
        (Step::SealHeap, 0, 0),
        (Step::Give, 0, 0),
        (Step::Take, 0, 1),
        (Step::SealRows, 0, 1),
        (Step::Give, 0, 1),
        (Step::Read, 0, 0),
        (Step::Read, 0, 1),
        (Step::Look, 0, 1),
    ]
}

fn add(alloc: Global, events: &mut Vec<Event>, steps: &[(Step, u32, u32)]) -> Result<(), Fail> {
    for step in steps {
        events.push(event(alloc, *step)?)?;
    }
    Ok(())
}

fn core(alloc: Global) -> Result<CoreState, Fail> {
    Ok(CoreState::open_core(alloc, 4096, 24, 2)?)
}

// What a run of these steps answers.
fn answer(alloc: Global, steps: &[(Step, u32, u32)]) -> Result<Result<(), CoreStop>, Fail> {
    let mut events = Vec::new(alloc);
    add(alloc, &mut events, steps)?;
    Ok(core(alloc)?.run(events))
}

// And where both pages were sealed and looked at before them.
fn answer_after(alloc: Global, steps: &[(Step, u32, u32)]) -> Result<Result<(), CoreStop>, Fail> {
    let mut events = Vec::new(alloc);
    add(alloc, &mut events, &sealed_and_looked())?;
    add(alloc, &mut events, steps)?;
    Ok(core(alloc)?.run(events))
}

#[test]
fn a_run_stops_at_the_first_event_that_is_not_enabled(rt: HostRuntime) -> Result<(), Fail> {
    let alloc = rt.alloc();
    assert_eq!(rt; answer(alloc, &[])?, Ok(()));
    assert_eq!(rt;
        answer(alloc, &[(Step::Leave, 0, 0)])?,
        Err(CoreStop::NotEnabled(0))
    );
    // a page that is read isn't claimed
    let claimed = [(Step::Take, 1, 0), (Step::Claim, 1, 0)];
    assert_eq!(rt;
        answer_after(alloc, &claimed)?,
        Err(CoreStop::NotEnabled(10))
    );
    // a row page isn't looked through while its heap page rests
    let rested = [
        (Step::Take, 1, 0),
        (Step::Leave, 0, 0),
        (Step::Claim, 1, 0),
        (Step::Rest, 1, 0),
        (Step::Look, 0, 1),
    ];
    assert_eq!(rt;
        answer_after(alloc, &rested)?,
        Err(CoreStop::NotEnabled(13))
    );
    // a dead page gives its frame, and isn't killed again
    let killed = [
        (Step::Leave, 0, 1),
        (Step::Claim, 1, 1),
        (Step::Kill, 1, 1),
        (Step::Take, 1, 1),
        (Step::Claim, 1, 1),
        (Step::Rest, 1, 1),
        (Step::Claim, 1, 1),
        (Step::Kill, 1, 1),
    ];
    assert_eq!(rt;
        answer_after(alloc, &killed)?,
        Err(CoreStop::NotEnabled(16))
    );
    Ok(())
}

// The heap page comes back in frame 2, so its base is 8,192, and a look waits until the row page has that base.
#[test]
fn a_look_waits_for_the_bases(rt: HostRuntime) -> Result<(), Fail> {
    let alloc = rt.alloc();
    let moved = [
        (Step::Take, 1, 0),
        (Step::Leave, 0, 0),
        (Step::Claim, 1, 0),
        (Step::Rest, 1, 0),
        (Step::Give, 1, 0),
        (Step::Take, 1, 2),
        (Step::Claim, 1, 0),
        (Step::Install, 1, 0),
        (Step::Read, 0, 0),
    ];
    let based = [
        (Step::Leave, 0, 1),
        (Step::Claim, 1, 1),
        (Step::Rebase, 1, 1),
        (Step::Read, 0, 1),
        (Step::Look, 0, 1),
        (Step::Hand, 1, 0),
    ];
    let mut early = Vec::new(alloc);
    add(alloc, &mut early, &sealed_and_looked())?;
    add(alloc, &mut early, &moved)?;
    add(alloc, &mut early, &[(Step::Look, 0, 1)])?;
    let mut one = core(alloc)?;
    assert_eq!(rt; one.run(early), Err(CoreStop::NotEnabled(18)));
    let mut later = Vec::new(alloc);
    add(alloc, &mut later, &based)?;
    assert_eq!(rt; one.run(later), Ok(()));
    Ok(())
}
