//! What whole searches meet, and what a word that is put in makes of a table.
ghost use Rattle.std.specs.Prelude.{◌≡◌, ℕ, ◌≤◌, Bool, true, false, List, [], ◌∷◌, ◌++◌, length, filter, count_by};
ghost use Rattle.number_bags.specs.Bags.{times};
ghost use Rattle.salt_words.specs.Runs.{run_at, has_salt, salted_at};
ghost use Rattle.salt_words.specs.Tables.{Pointer, words_of, IsTable, AreApart, IsPut, BeginAt, AreEmpty};

/// Of the words that pass a test, a search meets each once, where all their pointers begin at its place.
pub fn searches_meet_each_word_once()
    ensures { (words : List ℕ) (pointers : List Pointer) (good : ℕ → Bool) (first : ℕ) → IsTable words pointers → AreApart pointers → good 0 ≡ false → BeginAt good first pointers → (test : ℕ → Bool) → count_by test (filter good (run_at words first)) ≡ count_by test (filter good (words_of pointers)) }
{}

/// A search for a salt meets no more words than there are pointers with that salt.
pub fn searches_meet_no_more_than_one_salt()
    ensures { (words : List ℕ) (pointers : List Pointer) (salt first : ℕ) → IsTable words pointers → length (salted_at words salt first) ≤ count_by (has_salt salt) (words_of pointers) }
{}

/// A word that a search for a salt meets is a pointer's word.
pub fn searches_meet_words_of_the_table()
    ensures { (words : List ℕ) (pointers : List Pointer) (salt place word : ℕ) (rest : List ℕ) → IsTable words pointers → salted_at words salt place ≡ word ∷ rest → 1 ≤ times (words_of pointers) word }
{}

/// A list of empty places is a table of no pointers.
pub fn empty_places_are_a_table_of_no_pointers()
    ensures { (words : List ℕ) → AreEmpty words → IsTable words [] }
{}

/// A word that is put in makes a table with one pointer more. Where no pointer had the word, pointers stay apart.
pub fn a_word_put_in_is_one_pointer_more()
    ensures table { (old new : List ℕ) (pointers : List Pointer) (first word : ℕ) → IsTable old pointers → IsPut old new first word → IsTable new (pointers ++ record { first = first; word = word } ∷ []) }
    ensures apart { (pointers : List Pointer) (first word : ℕ) → AreApart pointers → times (words_of pointers) word ≡ 0 → AreApart (pointers ++ record { first = first; word = word } ∷ []) }
{}
