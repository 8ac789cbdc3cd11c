//! Bodies, turns and open pages hold no more frames than the pool has.
ghost use Rattle.std.specs.Prelude.{◌≤◌, length};
ghost use Rattle.page_pool.specs.View.{frame_count};

use crate::pool::Pool;
use crate::share::{FrameShare, share_of};
use ooc_io::TicketMark;
use std::sync::ledger::Ledger;

impl<M: TicketMark, B: Ledger> Pool<M, B> {
    /// The shares that stand beside frames, in bodies, turns and open pages, are at most as many as the pool's frames.
    pub fn shares_are_few(&self, kept: Vec<FrameShare<B>>)
        ensures { length kept.items ≤ frame_count self.now }
    {
        let mut kept = kept;
        if let Some(first) = kept.pop() {
            let mut sum = share_of(first);
            while let Some(next) = kept.pop() {
                sum.merge(share_of(next));
            }
            self.total.audit(&mut sum);
        }
    }
}
