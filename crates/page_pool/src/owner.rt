//! What a turn of a frame keeps.
use crate::page::PageRef;
use crate::share::FrameShare;
use evict_ring::TurnRule;
use ooc_io::TicketMark;
use std::marker::PhantomData;
use std::sync::ledger::Ledger;

/// The share that stands beside a spare frame, or the page that has the frame.
#[derive(Drop)]
pub enum Owner<M: TicketMark, B: Ledger> {
    Free(FrameShare<B>),
    Page(PageRef<M, B>),
}

/// The rule of the turns of a pool.
pub struct Turns<M: TicketMark, B: Ledger> {
    marks: PhantomData<(M, B)>,
}

impl<M: TicketMark, B: Ledger> TurnRule<Owner<M, B>> for Turns<M, B> {
    ghost use Rattle.page_pool.specs.Turns.{TurnHolds};

    ghost holds = { TurnHolds };
}
