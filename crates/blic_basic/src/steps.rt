// A count of steps that takes no bytes and no time.
ghost use Rattle.std.specs.Prelude.{◌≡◌, ◌+◌, ◌<◌, ℕ};

use std::marker::Model;
use std::sync::ledger::{Blank, Book, Ledger, Share};

/// A count of steps, for contracts alone. They see how many calls of `tick` there were, and nothing
/// else changes the number. A program can't read it: a value holds no byte, and `tick` does nothing
/// when it runs.
///
/// A function that takes a `&mut Steps<L>` and ticks at each costly operation can promise how many
/// of these it makes, such as `steps.new ≤ steps.old + 3`. A promise of this kind says nothing of
/// operations that aren't ticked.
///
/// `L` says which count it is. A function that is generic in it takes a `Blank`, and requires that
/// it is the one of `L`. A caller passes `Brand` for `L` and makes the blank by `Blank::new(1)`.
#[derive(Drop)]
pub struct Steps<L: Ledger> {
    book: Book<L>,
    share: Share<L>,
}

impl<L: Ledger> Model for Steps<L> {
    ghost Value = { ℕ };

    ghost view = { λ s. s.book.total };

    ghost invariant = { λ s. 0 < s.share.parts };
}

impl<L: Ledger> Steps<L> {
    /// No step so far, in the count of this blank.
    pub fn new(blank: Blank) -> Steps<L>
        requires name { blank.name ≡ L.name }
        requires parts { blank.parts ≡ L.parts }
        requires some { 0 < L.parts }
        ensures { result ≡ 0 }
    {
        let (book, share) = blank.open();
        Steps { book, share }
    }

    /// One more step.
    pub fn tick(&mut self)
        ensures { self.new ≡ self.old + 1 }
    {
        self.book.add(&mut self.share, 1);
    }
}
