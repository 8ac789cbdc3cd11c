//! The rule of the counter's table, and what its steps tell.
use atomic_table::{Join, Play, Split, TableRule};
use std::collections::LinkedList;

// What a seat knows. No value of it is made.
pub struct ClaimView {
    pub count: u64,
    pub parts: u64,
    pub ended: bool,
    pub draws: LinkedList<u64>,
}

// What the table is told when it is made.
#[derive(Drop)]
pub struct ClaimTerms {
    pub count: u64,
    pub parts: u64,
}

pub struct EachOnce;

impl TableRule<u8, ClaimView, ClaimTerms> for EachOnce {
    ghost use Rattle.claim_counter.specs.ClaimRule.{Counted, opened};

    ghost holds = { Counted };

    ghost first = { opened };
}

pub struct Draw;

impl Play<u8, ClaimView> for Draw {
    ghost use Rattle.claim_counter.specs.ClaimRule.{Drew};

    ghost then = { Drew };
}

pub struct OnePart;

impl Split<ClaimView> for OnePart {
    ghost use Rattle.claim_counter.specs.ClaimRule.{fewer, one_part};

    ghost left = { fewer };

    ghost right = { one_part };
}

impl Join<ClaimView> for OnePart {
    ghost use Rattle.claim_counter.specs.ClaimRule.{together, spent};

    ghost both = { together };

    ghost spent = { spent };
}
