//! Taking a body out of its cell to change it, and putting it back. A cell gives its value to a writer only for another,
//! so a change takes two turns: a dead body stands in the cell between them, under a word that nobody else turns.
ghost use Rattle.std.specs.Prelude.{◌≡◌, ◌<◌, ◌%◌, IfOk, IfErr, IfSome, None};
ghost use Rattle.counted_slot.specs.Counting.{readers};
ghost use Rattle.page_body.specs.declared.body.PageBody.TheVariants.{Dead};
ghost use Rattle.page_pool.specs.Cells.{Fitting};
ghost use Rattle.page_pool.specs.Words.{ShowsClaim};

use crate::cell::{Held, PageCell};
use counted_slot::{Claim, FREE, MARKED, ONE_READER, PRESENT, TAKEN};
use ooc_io::TicketMark;
use page_body::PageBody;
use std::marker::PhantomData;
use std::sync::ledger::Ledger;

/// The word of a cell that nobody claims.
pub const IDLE: u64 = PRESENT;

// The body is out with who put this word. No other turn begins at it.
const CHANGING: u64 = 0x1_0000_0000 + FREE;

// The body is back, for who put this word alone. No other turn begins at it.
const SETTLING: u64 = 0x1_0000_0000 + MARKED;

/// What stands in a cell while its body is out.
pub fn nothing<M: TicketMark, B: Ledger>() -> Held<M, B>
    ensures { result.body ≡ Dead None }
{
    Held {
        body: PageBody::Dead { frame: None },
        share: None,
        mark: PhantomData,
    }
}

/// Takes the body out, if nobody claims the cell. Err has the word that was found.
pub fn take_out<M: TicketMark, B: Ledger>(cell: &PageCell<M, B>) -> Result<Held<M, B>, u64>
    ensures fits { IfOk result (λ held. Fitting M.tells cell.now.cell held.body) }
    ensures busy { IfErr result ShowsClaim }
{
    let (found, claim) = cell.cell.turn(IDLE, TAKEN);
    if found != IDLE {
        claim.done();
        return Err(found);
    }
    Ok(claim.put(nothing(), CHANGING))
}

// Puts a body in under a word. Nobody else turns the word that stands there meanwhile, so the first try is the last.
fn put_under<M: TicketMark, B: Ledger>(cell: &PageCell<M, B>, held: Held<M, B>, word: u64)
    requires fits { Fitting M.tells cell.now.cell held.body }
    requires state { word % 4 < 3 }
    requires alone { readers word ≡ 0 }
{
    for _ in 0..u64::MAX {
        let (found, claim) = cell.cell.turn(CHANGING, TAKEN);
        if found == CHANGING {
            claim.put(held, word);
            return;
        }
        claim.done();
    }
}

/// Puts a body that was taken out back in.
pub fn put_in<M: TicketMark, B: Ledger>(cell: &PageCell<M, B>, held: Held<M, B>)
    requires { Fitting M.tells cell.now.cell held.body }
{
    put_under(cell, held, IDLE);
}

/// Puts a body that was taken out back in, and reads it before anybody else may change it. Nobody else turns the word
/// that stands there meanwhile, so the first try is the last.
pub fn put_and_read<'a, M: TicketMark, B: Ledger>(
    cell: &'a PageCell<M, B>,
    held: Held<M, B>,
) -> Option<Claim<'a, Held<M, B>>>
    requires { Fitting M.tells cell.now.cell held.body }
    ensures right { IfSome result (λ claim. claim.right ≡ 1) }
    ensures tag { IfSome result (λ claim. claim.tag ≡ cell.now.cell) }
{
    put_under(cell, held, SETTLING);
    for _ in 0..u64::MAX {
        let (found, claim) = cell.cell.turn(SETTLING, IDLE + ONE_READER);
        if found == SETTLING {
            return Some(claim);
        }
        claim.done();
    }
    None
}
