//! A lane over images at places.
ghost use Rattle.std.specs.Prelude.{◌≡◌, ◌≢◌, ◌⊎◌, Err, None, Some, IfOk, OnOk, OnErr, is_err};
ghost use Rattle.ooc_io.specs.Counts.{HasCause, faults_after};
ghost use Rattle.ooc_io.specs.Lanes.{HasLaneCause, CountsWrites, is_failure};
ghost use Rattle.spill_file.specs.Places.{place_of, next_place, IsNewBook, TakesPlace, GivesPlace};
ghost use Rattle.spill_file.specs.Images.{LiesAt, SameOut};
ghost use Rattle.spill_file.specs.Lane.{write_count, fault_count, book_of, store_of};

use crate::images::ImageStore;
use crate::place::{place_of, ticket_of};
use crate::places::Places;
use ooc_io::{LaneFault, Silent, SpillFailed, SpillLane, Ticket};
use std::alloc::Global;

/// A lane whose images lie at places of a store. All images of a run have one length. A place that was given back is
/// written again, be it in another lane's file, before the lane's own file gets longer.
#[derive(Drop)]
pub struct FileLane<S: ImageStore> {
    store: S,
    places: Places,
    writes: u64,
    faults: u64,
}

impl<S: ImageStore> FileLane<S> {
    /// A lane over a store. It has written nothing, and the places in its hand are those of the store's own file.
    pub fn new_lane(alloc: Global, store: S) -> FileLane<S>
        ensures writes { write_count result ≡ 0 }
        ensures faults { fault_count result ≡ 0 }
        ensures places { IsNewBook (S.number store) (book_of result) }
        ensures store { store_of result ≡ store }
    {
        let places = Places::new_places(alloc, store.lane());
        FileLane {
            store,
            places,
            writes: 0,
            faults: 0,
        }
    }

    /// How many writes succeeded.
    pub fn write_count(&self) -> u64
        ensures { result ≡ write_count self.now }
    {
        self.writes
    }

    /// How often a call failed.
    pub fn fault_count(&self) -> u64
        ensures { result ≡ fault_count self.now }
    {
        self.faults
    }

    /// Removes the lane's file, where it made one.
    pub fn remove_file(&self) {
        self.store.remove_file();
    }
}

impl<S: ImageStore> SpillLane for FileLane<S> {
    type Mark = Silent;

    ghost writes = { λ l. write_count l };

    ghost faults = { λ l. fault_count l };

    // It takes no memory, and its ticket keeps nothing. The image goes to the next place of the lane's hand, and the
    // images at all others stay, be it that the write fails.
    fn write(&mut self, image: &[u8]) -> Result<Ticket, LaneFault>
        ensures writes { CountsWrites (write_count self.old) (write_count self.new) result }
        ensures cause { HasLaneCause (fault_count self.old) (fault_count self.new) result }
        ensures faults { fault_count self.new ≡ faults_after (is_failure result) (fault_count self.old) }
        ensures quiet { IfOk result (λ ticket. ticket.kept ≡ None) }
        ensures memory { result ≢ Err LaneFault.OutOfMemory }
        ensures next { IfOk result (λ ticket. next_place (book_of self.old) ≡ Some (place_of ticket)) }
        ensures takes { IfOk result (λ ticket. TakesPlace (place_of ticket) (book_of self.old) (book_of self.new)) }
        ensures refused { OnErr result (book_of self.new ≡ book_of self.old) }
        ensures image { IfOk result (λ ticket. LiesAt (S.images (store_of self.new)) (place_of ticket) image.now) }
        ensures others { SameOut (book_of self.old) (S.images (store_of self.old)) (S.images (store_of self.new)) }
    {
        if let Some(place) = self.places.next() {
            if self.store.write(place, image) {
                self.places.take();
                self.writes = self.writes.saturating_add(1);
                return Ok(ticket_of(place));
            }
        }
        self.faults = self.faults.saturating_add(1);
        Err(LaneFault::Failed)
    }

    // It reads the image at the ticket's place, and writes nothing.
    fn read(&mut self, ticket: &Ticket, into: &mut [u8]) -> Result<(), SpillFailed>
        ensures writes { write_count self.new ≡ write_count self.old }
        ensures cause { HasCause (fault_count self.old) (fault_count self.new) result }
        ensures faults { fault_count self.new ≡ faults_after (is_err result) (fault_count self.old) }
        ensures image { OnOk result (LiesAt (S.images (store_of self.old)) (place_of ticket.now) into.new) }
        ensures images { S.images (store_of self.new) ≡ S.images (store_of self.old) }
        ensures book { book_of self.new ≡ book_of self.old }
    {
        if self.store.read(place_of(ticket), into) {
            return Ok(());
        }
        self.faults = self.faults.saturating_add(1);
        Err(SpillFailed)
    }

    // The ticket's place comes into the lane's hand, and is the next to be written to, unless memory runs out for the
    // list.
    fn free(&mut self, ticket: Ticket)
        ensures writes { write_count self.new ≡ write_count self.old }
        ensures faults { fault_count self.new ≡ fault_count self.old }
        ensures images { S.images (store_of self.new) ≡ S.images (store_of self.old) }
        ensures book { GivesPlace (place_of ticket) (book_of self.old) (book_of self.new) ⊎ (book_of self.new ≡ book_of self.old) }
    {
        let _ = self.places.give(place_of(&ticket));
    }
}
