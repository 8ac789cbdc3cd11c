//! Pages whose texts are moved, and pages that are retired.
ghost use Rattle.std.specs.Prelude.{◌≡◌, ◌<◌, ◌%◌, ◌^◌};
ghost use Rattle.page_pool.specs.View.{IsPageOf, page_bytes};
ghost use Rattle.page_pool.specs.Changes.{RebaseIs, RetireIs, Retires};
ghost use Rattle.page_pool.specs.Bodies.{is_living};

use crate::cell::Held;
use crate::claims::{put_in, take_out};
use crate::moves::{Was, rebase_body};
use crate::page::PageRef;
use crate::pool::Pool;
use ooc_io::{SpillLane, TicketMark};
use page_body::PageBody;
use std::sync::ledger::Ledger;

/// What came of a page of which a part was to be moved.
#[derive(Clone, Copy)]
pub enum Rebase {
    Rebased,
    /// Somebody reads the page or changes it: the word that was found.
    Busy(u64),
    Resting,
    Dead,
}

/// What came of a page that was to be retired.
#[derive(Clone, Copy)]
pub enum Retire {
    Retired,
    /// Somebody reads the page or changes it: the word that was found.
    Busy(u64),
    Dead,
}

fn lives(body: &PageBody) -> bool
    ensures { result ≡ is_living body.now }
{
    !matches!(body, PageBody::Dead { .. })
}

// Ends the life of a body, and gives its ticket back to a lane. Its frame stays with it.
fn retire_body<L: SpillLane>(lane: &mut L, body: &mut PageBody) -> Retire
    ensures retired { Retires body.old body.new result }
    ensures writes { L.writes lane.new ≡ L.writes lane.old }
    ensures faults { L.faults lane.new ≡ L.faults lane.old }
{
    if !lives(body) {
        return Retire::Dead;
    }
    if let Some(ticket) = body.kill() {
        lane.free(ticket);
    }
    Retire::Retired
}

impl<M: TicketMark, B: Ledger> Pool<M, B> {
    /// Moves the texts of a part of a page to another base. It changes nothing where the page isn't a row page, or has no
    /// such part with a heap page. What the page stands for stays. It takes no memory.
    pub fn try_rebase(&self, page: &PageRef<M, B>, part: u32, base: u64) -> Rebase
        requires page { IsPageOf self.now page.now }
        requires aligned { base % page_bytes self.now ≡ 0 }
        requires low { base < 2 ^ 48 }
        ensures { RebaseIs result }
    {
        let cell = self.cells.cell(page);
        let held = match take_out(cell) {
            Ok(held) => held,
            Err(word) => return Rebase::Busy(word),
        };
        let Held {
            mut body,
            share,
            mark,
        } = held;
        let was = rebase_body(cell, &mut body, part, base);
        put_in(cell, Held { body, share, mark });
        match was {
            Was::Resident => Rebase::Rebased,
            Was::Resting => Rebase::Resting,
            Was::Dead => Rebase::Dead,
        }
    }

    /// Ends a page's life, and frees its ticket on a lane. Its frame goes with the next that takes its turn. It takes no
    /// memory.
    pub fn try_retire<L: SpillLane<Mark = M>>(&self, lane: &mut L, page: &PageRef<M, B>) -> Retire
        requires page { IsPageOf self.now page.now }
        ensures busy { RetireIs result }
        ensures writes { L.writes lane.new ≡ L.writes lane.old }
        ensures faults { L.faults lane.new ≡ L.faults lane.old }
    {
        let cell = self.cells.cell(page);
        let held = match take_out(cell) {
            Ok(held) => held,
            Err(word) => return Retire::Busy(word),
        };
        let Held {
            mut body,
            share,
            mark,
        } = held;
        let answer = retire_body(lane, &mut body);
        put_in(cell, Held { body, share, mark });
        answer
    }
}
