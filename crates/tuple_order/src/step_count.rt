//! A counter of steps.

ghost use Rattle.std.specs.Prelude.{◌≡◌, ℕ, ◌+◌, ◌<◌};

use std::marker::Model;
use std::sync::ledger::{Book, Ledger, Share};

/// A counter without bytes, which contracts see as a number. One step is one call of a query's `judge`.
#[derive(Drop)]
pub struct Steps<L: Ledger> {
    book: Book<L>,
    share: Share<L>,
}

impl<L: Ledger> Model for Steps<L> {
    ghost use Rattle.std.specs.Prelude.{ℕ, ◌<◌};

    ghost Value = { ℕ };

    ghost view = { λ s. s.share.amount };

    ghost invariant = { λ s. 0 < s.share.parts };
}

impl<L: Ledger> Steps<L> {
    /// The counter that begins at the share's amount.
    pub fn make(book: Book<L>, share: Share<L>) -> Steps<L>
        requires whole { share.parts ≡ L.parts }
        requires parts { 0 < L.parts }
        ensures { result ≡ share.amount }
    {
        Steps { book, share }
    }

    /// Counts one step more.
    pub fn tick(&mut self)
        ensures { self.new ≡ self.old + 1 }
    {
        self.book.add(&mut self.share, 1);
    }
}
