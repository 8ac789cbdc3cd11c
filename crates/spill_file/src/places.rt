//! The places that a lane may write to.
ghost use Rattle.std.specs.Prelude.{◌≡◌, ◌⊎◌, Some, OnErr, OnOk};
ghost use Rattle.spill_file.specs.Places.{PlaceBook, IsNewBook, TakesPlace, GivesPlace, next_place};
ghost use Rattle.spill_file.specs.declared.place.Place.{Place};

use crate::place::Place;
use ooc_io::OutOfMemory;
use std::alloc::Global;
use std::marker::Model;

/// The places in a lane's hand: those that were given back to it, and all at the end of its own file and behind it.
#[derive(Drop)]
pub struct Places {
    lane: u32,
    free: Vec<Place>,
    end: u64,
}

impl Model for Places {
    ghost use Rattle.spill_file.specs.Places.{PlaceBook};

    ghost Value = { PlaceBook };

    ghost view = { λ p. record { lane = p.lane; free = p.free.items; end = p.end } };
}

impl Places {
    /// All places of a lane's own file.
    pub fn new_places(alloc: Global, lane: u32) -> Places
        ensures { IsNewBook lane result }
    {
        Places {
            lane,
            free: Vec::new(alloc),
            end: 0,
        }
    }

    /// The place to write to next: the one that was given back last, or else the one at the end of the lane's own file,
    /// where a file has one more.
    pub fn next(&self) -> Option<Place>
        ensures { result ≡ next_place self.now }
    {
        match self.free.last() {
            Some(place) => Some(*place),
            None if self.end < u64::MAX => Some(Place {
                lane: self.lane,
                number: self.end,
            }),
            None => None,
        }
    }

    /// Takes the next place out of the lane's hand.
    pub fn take(&mut self)
        ensures { (p : Place) → next_place self.old ≡ Some p → TakesPlace p self.old self.new }
    {
        match self.free.pop() {
            Some(_) => {}
            None => self.end = self.end.saturating_add(1),
        }
    }

    /// Puts a place into the lane's hand. Where the list has no memory for it, it is lost.
    pub fn give(&mut self, place: Place) -> Result<(), OutOfMemory>
        ensures given { OnOk result (GivesPlace place self.old self.new) }
        ensures lost { OnErr result (self.new ≡ self.old) }
    {
        self.free.push(place)?;
        Ok(())
    }
}
