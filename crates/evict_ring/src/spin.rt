//! Bringing a slot of a seat to the front. It costs nothing at run time.
ghost use Rattle.std.specs.Prelude.{◌≡◌, ◌<◌, length, slice_index};
ghost use Rattle.number_bags.specs.Bags.{times};
ghost use Rattle.evict_ring.specs.Spun.{spun};

use atomic_table::Seat;

/// So many slots go behind the others.
pub fn spin<S, V>(seat: &mut Seat<S, V>, count: usize)
    ensures table { seat.new.table_id ≡ seat.old.table_id }
    ensures id { seat.new.id ≡ seat.old.id }
    ensures me { seat.new.me ≡ (seat.old.me.0, spun count seat.old.me.1) }
{
    for _ in 0..count {
        seat.turn();
    }
}

/// The first place of a number in a list that has it.
pub fn place_of(list: &[u32], number: u32) -> usize
    requires { 0 < times list.now number }
    ensures place { result < length list.now }
    ensures is { slice_index list.now result ≡ number }
{
    for place in 0..list.len() {
        if list[place] == number {
            return place;
        }
    }
    unreachable!()
}
