//! A table of four places, of which three are filled round the end.
ghost use Rattle.std.specs.Prelude.{◌≡◌, ◌<◌, ◌≤◌, ◌+◌, length};
ghost use Rattle.number_bags.specs.Bags.{times};

use super::*;
use std::test::Fail;

// A word with a salt.
fn word_of(salt: u64, row: u64) -> u64
    requires salt { salt < 65536 }
    requires row { row < 65536 }
    ensures { 1 ≤ result }
{
    (salt << 48) + row + 1
}

fn put_in(words: &mut Vec<u64>, first: usize, word: u64)
    requires holes { 2 ≤ times words.old.items 0 }
    requires inside { first < length words.old.items }
    requires some { 1 ≤ word }
    ensures hole { times words.old.items 0 ≡ times words.new.items 0 + 1 }
    ensures long { length words.new.items ≡ length words.old.items }
{
    put_word(words, first, word);
}

fn next_in(words: &Vec<u64>, place: &mut usize, salt: u64) -> Option<u64>
    requires hole { 1 ≤ times words.now.items 0 }
    requires inside { place.old < length words.now.items }
    ensures inside { place.new < length words.now.items }
{
    next_salted(words, place, salt)
}

#[test]
fn searches_go_round_the_end(rt: HostRuntime) -> Result<(), Fail> {
    let mut words = vec![in rt.alloc(); 0, 0, 0, 0]?;
    let (first, second, third) = (word_of(7, 1), word_of(9, 2), word_of(7, 3));
    put_in(&mut words, 3, first);
    put_in(&mut words, 3, second);
    put_in(&mut words, 3, third);
    assert!(rt; words.as_slice() == [second, third, 0, first].as_slice());
    let mut place = 3;
    assert!(rt; next_in(&words, &mut place, 7) == Some(first));
    assert!(rt; next_in(&words, &mut place, 7) == Some(third));
    assert!(rt; next_in(&words, &mut place, 7).is_none());
    assert!(rt; place == 2);
    place = 3;
    assert!(rt; next_in(&words, &mut place, 9) == Some(second));
    assert!(rt; next_in(&words, &mut place, 9).is_none());
    place = 1;
    assert!(rt; next_in(&words, &mut place, 9).is_none());
    Ok(())
}
