//! Searching and filling a pointer table.
ghost use Rattle.std.specs.Prelude.{◌≡◌, ℕ, ◌<◌, ◌≤◌, ◌∷◌, [], length, set, IfSome, None};
ghost use Rattle.number_bags.specs.Bags.{times};
ghost use Rattle.salt_words.specs.Runs.{next_of, has_salt, salted_at};
ghost use Rattle.salt_words.specs.Tables.{IsPut};

use crate::words::Words;

#[tactic(auto, unfolding(crate::specs::Runs::next_of))]
fn next_place(place: usize, count: usize) -> usize
    requires { place < count }
    ensures is { result ≡ next_of place count }
    ensures below { result < count }
{
    if place + 1 == count { 0 } else { place + 1 }
}

#[tactic(auto, unfolding(crate::specs::Runs::has_salt))]
fn is_salted(word: u64, salt: u64) -> bool
    ensures { result ≡ has_salt salt word }
{
    word >> 48 == salt
}

/// The next word with a salt that a search from `place` on meets; `place` moves behind it. None where there is no more.
pub fn next_salted<W: Words>(words: &W, place: &mut usize, salt: u64) -> Option<u64>
    requires hole { 1 ≤ times (W.words words.now) 0 }
    requires inside { place.old < length (W.words words.now) }
    ensures inside { place.new < length (W.words words.now) }
    ensures some { IfSome result (λ word. salted_at (W.words words.now) salt place.old ≡ word ∷ salted_at (W.words words.now) salt place.new) }
    ensures none { result ≡ None → salted_at (W.words words.now) salt place.old ≡ [] }
    ensures end { result ≡ None → salted_at (W.words words.now) salt place.new ≡ [] }
{
    let mut at = *place;
    let mut word = words.word(at);
    while word != 0 {
        at = next_place(at, words.count());
        if is_salted(word, salt) {
            *place = at;
            return Some(word);
        }
        word = words.word(at);
    }
    *place = at;
    None
}

/// The first empty place that a search from `first` on comes to. A word that is put there is met by such searches.
pub fn free_place<W: Words>(words: &W, first: usize) -> usize
    requires holes { 2 ≤ times (W.words words.now) 0 }
    requires inside { first < length (W.words words.now) }
    ensures inside { result < length (W.words words.now) }
    ensures free { (word : ℕ) → 1 ≤ word → IsPut (W.words words.now) (set (W.words words.now) result word) first word }
{
    let mut at = first;
    while words.word(at) != 0 {
        at = next_place(at, words.count());
    }
    at
}

/// Puts a word into the first empty place that a search from `first` on comes to.
pub fn put_word<W: Words>(words: &mut W, first: usize, word: u64)
    requires holes { 2 ≤ times (W.words words.old) 0 }
    requires inside { first < length (W.words words.old) }
    requires some { 1 ≤ word }
    ensures { IsPut (W.words words.old) (W.words words.new) first word }
{
    let at = free_place(words, first);
    words.set_word(at, word);
}
