//! How a page is pinned where it lies, and read.
ghost use Rattle.std.specs.Prelude.{◌≡◌, ◌^◌, ◌<◌, ◌+◌, ◌%◌, IsTrue, IfSome, false};
ghost use Rattle.counted_slot.specs.Counting.{readers, IsTurn};
ghost use Rattle.page_pool.specs.Cells.{Fitting};
ghost use Rattle.page_pool.specs.Pages.{IsCellOf, HitIs, bytes_under, frame_under};
ghost use Rattle.page_pool.specs.Shown.{SeenAs};
ghost use Rattle.page_pool.specs.Words.{ShowsClaim};

use crate::cell::Held;
use crate::cells::Cells;
use crate::claims::{IDLE, put_and_read};
use crate::page::{Hit, PageRef, Pin};
use counted_slot::{Claim, MOST_READERS, ONE_READER, PRESENT};
use ooc_io::TicketMark;
use page_body::PageBody;
use std::snapshot::Snapshot;
use std::sync::ledger::Ledger;

// How often a reader tries again after others came or went in between.
const MOST_TRIES: u32 = 4096;

// Whether no reader may come.
fn is_shut(word: u64) -> bool
    ensures shut { IsTrue result → ShowsClaim word }
    ensures turn { result ≡ false → IsTurn word (word + 4) × (readers word < readers (word + 4)) × (word + 4 < 2 ^ 64) × ((word + 4) % 4 < 3) }
{
    word % 4 != PRESENT || word % 0x1_0000_0000 / 4 >= MOST_READERS
}

// A pin by a reader's claim, where the page has a frame.
fn pin_by<'a, M: TicketMark, B: Ledger>(
    page: &PageRef<M, B>,
    claim: Claim<'a, Held<M, B>>,
) -> Hit<'a, M, B>
    requires right { claim.right ≡ 1 }
    requires tag { claim.tag ≡ page.now.shown.value.cell }
    ensures hit { HitIs M.tells page.now result }
    ensures seen { SeenAs claim.entry.value result }
{
    match claim.get().body {
        PageBody::Resident { .. } => Hit::Pinned(Pin {
            claim,
            page: Snapshot::of(page),
        }),
        PageBody::Resting { .. } => {
            claim.leave();
            Hit::Resting
        }
        PageBody::Dead { .. } => {
            claim.leave();
            Hit::Dead
        }
    }
}

impl<M: TicketMark, B: Ledger> Cells<M, B> {
    /// A pin on the page, if its body is resident and nobody changes it. Where readers come and go faster than this one,
    /// it answers the word that it found first.
    pub fn try_hit<'a>(&'a self, page: &PageRef<M, B>) -> Hit<'a, M, B>
        requires { IsCellOf self.now page.now }
        ensures { HitIs M.tells page.now result }
    {
        let cell = &self.cell(page).cell;
        let (first, claim) = cell.turn(IDLE, IDLE + ONE_READER);
        if first == IDLE {
            return pin_by(page, claim);
        }
        claim.done();
        let mut word = first;
        for _ in 0..MOST_TRIES {
            if is_shut(word) {
                return Hit::Busy(word);
            }
            let (found, claim) = cell.turn(word, word + ONE_READER);
            if found == word {
                return pin_by(page, claim);
            }
            claim.done();
            word = found;
        }
        Hit::Busy(first)
    }

    /// Puts a body that was taken out back in, and pins the page if it is resident. None comes only where others turn a
    /// word that is this call's alone, which none does.
    pub fn put_and_pin<'a>(
        &'a self,
        page: &PageRef<M, B>,
        held: Held<M, B>,
    ) -> Option<Hit<'a, M, B>>
        requires page { IsCellOf self.now page.now }
        requires fits { Fitting M.tells page.now.shown.value.cell held.body }
        ensures { IfSome result (HitIs M.tells page.now) }
    {
        match put_and_read(self.cell(page), held) {
            Some(claim) => Some(pin_by(page, claim)),
            None => None,
        }
    }
}

/// The bytes under a pin.
pub fn bytes_of<'a, M: TicketMark, B: Ledger>(pin: &'a Pin<'_, M, B>) -> &'a [u8]
    ensures { result.now ≡ bytes_under pin.now }
{
    match &pin.claim.get().body {
        PageBody::Resident { frame, .. } => frame.bytes.as_slice(),
        PageBody::Resting { .. } | PageBody::Dead { .. } => unreachable!(),
    }
}

/// The number of the frame under a pin.
pub fn frame_of<M: TicketMark, B: Ledger>(pin: &Pin<'_, M, B>) -> u32
    ensures { result ≡ frame_under pin.now }
{
    match &pin.claim.get().body {
        PageBody::Resident { frame, .. } => frame.number,
        PageBody::Resting { .. } | PageBody::Dead { .. } => unreachable!(),
    }
}

/// Ends a pin.
pub fn leave<M: TicketMark, B: Ledger>(pin: Pin<'_, M, B>) {
    let Pin { claim, page: _ } = pin;
    claim.leave();
}
