//! Where the words of a table lie.

/// A list of words that are read and changed at a place.
pub trait Words {
    ghost use Rattle.std.specs.Prelude.{◌≡◌, ◌<◌, ℕ, List, length, get_or, set};

    /// The words, in the order of their places.
    ghost words: { Self → List ℕ };

    /// How many words there are.
    fn count(&self) -> usize
        ensures { result ≡ length (words self.now) };

    /// The word at a place.
    fn word(&self, at: usize) -> u64
        requires { at < length (words self.now) }
        ensures { result ≡ get_or (words self.now) at 0 };

    /// Changes the word at a place.
    fn set_word(&mut self, at: usize, word: u64)
        requires { at < length (words self.old) }
        ensures { words self.new ≡ set (words self.old) at word };
}

impl Words for Vec<u64> {
    ghost words = { λ v. v.items };

    fn count(&self) -> usize {
        self.len()
    }

    fn word(&self, at: usize) -> u64 {
        self[at]
    }

    fn set_word(&mut self, at: usize, word: u64) {
        self[at] = word;
    }
}
