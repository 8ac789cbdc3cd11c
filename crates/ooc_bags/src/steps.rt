//! A count of steps that takes no bytes at run time.
ghost use Rattle.std.specs.Prelude.{◌≡◌, ℕ, ◌+◌, ◌<◌};

use std::marker::Model;
use std::sync::ledger::{Blank, Book, Ledger, Share};

/// How many steps were counted. Contracts see the number; no code can read it.
#[derive(Drop)]
pub struct Steps<L: Ledger> {
    book: Book<L>,
    all: Share<L>,
}

// A share counts only while it has a part.
impl<L: Ledger> Model for Steps<L> {
    ghost Value = { ℕ };

    ghost view = { λ s. s.book.total };

    ghost invariant = { λ s. 0 < s.all.parts };
}

impl<L: Ledger> Steps<L> {
    /// No step was counted yet.
    pub fn new_steps(blank: Blank) -> Steps<L>
        requires name { blank.name ≡ L.name }
        requires parts { blank.parts ≡ L.parts }
        requires some { 0 < blank.parts }
        ensures { result ≡ 0 }
    {
        let (book, all) = blank.open::<L>();
        Steps { book, all }
    }

    /// Counts one step more.
    pub fn tick(&mut self)
        ensures { self.new ≡ self.old + 1 }
    {
        let Steps { book, all } = self;
        book.add(all, 1);
    }
}
