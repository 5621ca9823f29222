// The open contracts of a line: two names over `over_orders`, since callers name them.
ghost use Rattle.std.specs.Prelude.{◌≡◌, ◌≤◌, unsigned_abs};
ghost use Rattle.margin.specs.Cells.{buys, sells};
ghost use Rattle.cells.specs.Books.{book_of};

use crate::book::Book;

pub fn open_buys(book: Book, line: usize) -> i64
    ensures value { result ≡ buys (book_of book.entry) line }
    ensures size { unsigned_abs result ≤ 320000 }
{
    book.over_orders(line, |order| order.buys())
}

pub fn open_sells(book: Book, line: usize) -> i64
    ensures value { result ≡ sells (book_of book.entry) line }
    ensures size { unsigned_abs result ≤ 320000 }
{
    book.over_orders(line, |order| order.sells())
}
