//! The rule of the hand's table, and what its steps tell.
use atomic_table::{Join, Play, Split, TableRule};
use std::collections::LinkedList;
use std::snapshot::Snapshot;

// What a seat knows. No value of it is made.
pub struct HandView<H> {
    pub count: u64,
    pub parts: u64,
    pub ended: bool,
    pub draws: LinkedList<u64>,
    // The slots that are out with it.
    pub out: LinkedList<u64>,
    // All items of the hand, since a step can't read the key.
    pub items: LinkedList<H>,
}

// What the table is told when it is made.
#[derive(Drop)]
pub struct HandTerms<H> {
    pub count: u64,
    pub parts: u64,
    pub items: Snapshot<Vec<H>>,
}

pub struct EachDealtOnce;

impl<H> TableRule<Option<H>, HandView<H>, HandTerms<H>> for EachDealtOnce {
    ghost use Rattle.claim_counter.specs.HandRule.{Dealt, opened};

    ghost holds = { Dealt };

    ghost first = { opened };
}

pub struct DrawItem;

impl<H> Play<Option<H>, HandView<H>> for DrawItem {
    ghost use Rattle.claim_counter.specs.HandRule.{DrewItem};

    ghost then = { DrewItem };
}

pub struct GiveBack;

impl<H> Play<Option<H>, HandView<H>> for GiveBack {
    ghost use Rattle.claim_counter.specs.HandRule.{GaveBack};

    ghost then = { GaveBack };
}

pub struct OneHandPart;

impl<H> Split<HandView<H>> for OneHandPart {
    ghost use Rattle.claim_counter.specs.HandRule.{fewer, one_part};

    ghost left = { fewer };

    ghost right = { one_part };
}

impl<H> Join<HandView<H>> for OneHandPart {
    ghost use Rattle.claim_counter.specs.HandRule.{together, spent};

    ghost both = { together };

    ghost spent = { spent };
}
