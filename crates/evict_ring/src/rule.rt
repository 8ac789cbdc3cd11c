//! The rule of the ring's table, and what its steps tell.
use crate::turn::Turn;
use atomic_table::{Join, Play, Split, TableRule};
use boxcar::tag::Tag;
use std::collections::LinkedList;
use std::marker::PhantomData;

/// What holds of each turn at home, by the numbers of the ring's tag.
pub trait TurnRule<H> {
    ghost use Rattle.std.specs.Prelude.{ℕ, List};
    ghost use Rattle.evict_ring.specs.declared.turn.Turn.{Turn};

    ghost holds: { List ℕ → Turn H → Type 0 };
}

// What a seat knows. No value of it is made.
pub struct View {
    // The numbers of the ring's tag, since a step can't read the key.
    pub about: LinkedList<u64>,
    // The frames whose turns are out with the seat.
    pub held: LinkedList<u32>,
    // The frames whose turns it found out, in order.
    pub refused: LinkedList<u32>,
    // Where it found the hand, in order.
    pub starts: LinkedList<u64>,
}

// How many turns there are, and what their rule is about.
#[derive(Drop)]
pub struct Terms {
    pub turns: u32,
    pub about: Tag,
}

pub struct InPlace<T> {
    rule: PhantomData<T>,
}

impl<H, T: TurnRule<H>> TableRule<Option<Turn<H>>, View, Terms> for InPlace<T> {
    ghost use Rattle.evict_ring.specs.Rule.{HasTurns, nobody};

    ghost holds = { λ k s. HasTurns (T.holds k.about.numbers) k.turns s };

    ghost first = { λ k. nobody k.about.numbers };
}

pub struct Start;

impl<H> Play<Option<Turn<H>>, View> for Start {
    ghost use Rattle.evict_ring.specs.Rule.{Started};

    ghost then = { Started };
}

pub struct Take<T> {
    rule: PhantomData<T>,
}

impl<H, T: TurnRule<H>> Play<Option<Turn<H>>, View> for Take<T> {
    ghost use Rattle.evict_ring.specs.Rule.{Took};

    ghost then = { Took T.holds };
}

pub struct Give;

impl<H> Play<Option<Turn<H>>, View> for Give {
    ghost use Rattle.evict_ring.specs.Rule.{Gave};

    ghost then = { Gave };
}

pub struct NoTurns;

impl Split<View> for NoTurns {
    ghost use Rattle.evict_ring.specs.Rule.{nobody};

    ghost left = { λ v. v };

    ghost right = { λ v. nobody v.about };
}

impl Join<View> for NoTurns {
    ghost use Rattle.std.specs.Prelude.{[]};
    ghost use Rattle.evict_ring.specs.Rule.{nobody, both};

    ghost both = { both };

    ghost spent = { nobody [] };
}
