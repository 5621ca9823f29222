// What a book holds of a line, and may come to hold.
ghost use Rattle.std.specs.Prelude.{◌≡◌, ◌^◌, ◌≤◌, unsigned_abs};
ghost use Rattle.margin.specs.Book.{position as position_of};
ghost use Rattle.margin.specs.Cells.{long_reach, short_reach};
ghost use Rattle.cells.specs.Books.{book_of};

use crate::book::Book;
use crate::charges::Reach;
use crate::open::{open_buys, open_sells};
use margin::book::Position;

impl<'a> Book<'a> {
    // The position of a line, which is empty where the book has none.
    pub(crate) fn position(&self, line: usize) -> Position
        ensures value { result ≡ position_of (book_of self.now) line }
        ensures net { unsigned_abs result.net ≤ 10000 }
        ensures cost { unsigned_abs result.cost ≤ 2 ^ 56 }
    {
        self.positions.get(line).copied().unwrap_or_default()
    }

    // The most that a line may come to hold.
    pub(crate) fn long_reach(&self, line: usize) -> Reach
        ensures { result.contracts ≡ long_reach (book_of self.now) line }
    {
        Reach::of(self.position(line).net, open_buys(*self, line))
    }

    // The most that a line may come to be short of.
    pub(crate) fn short_reach(&self, line: usize) -> Reach
        ensures { result.contracts ≡ short_reach (book_of self.now) line }
    {
        Reach::of(-self.position(line).net, open_sells(*self, line))
    }
}
