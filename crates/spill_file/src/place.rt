//! A place for an image.
ghost use Rattle.std.specs.Prelude.{◌≡◌, None};
ghost use Rattle.spill_file.specs.Places.{place_of};

use ooc_io::Ticket;

/// A place for one image: in the file of that lane, behind that many other images.
#[derive(Clone, Copy, Debug, PartialEq, Eq)]
pub struct Place {
    pub lane: u32,
    pub number: u64,
}

/// The place of a ticket.
pub fn place_of(ticket: &Ticket) -> Place
    ensures { result ≡ place_of ticket.now }
{
    Place {
        lane: ticket.lane,
        number: ticket.place,
    }
}

/// A ticket of a place, which keeps nothing.
pub fn ticket_of(place: Place) -> Ticket
    ensures place { place_of result ≡ place }
    ensures quiet { result.kept ≡ None }
{
    Ticket::new_ticket(place.lane, place.number)
}
