// What a line adds to its month's cell: its position less charges, and its open orders where they lose.
ghost use Rattle.std.specs.Prelude.{◌≡◌, ◌^◌, ◌≤◌, unsigned_abs};
ghost use Rattle.margin.specs.Cells.{charged, charges_at};
ghost use Rattle.margin.specs.Book.{line as line_of};
ghost use Rattle.cells.specs.Books.{book_of};
ghost use Rattle.cells.specs.Shares.{line_share};
ghost use Rattle.deck.specs.Decks.{deck_cards};

use crate::charges::Future;
use crate::desk::Desk;
use banks::bank::Bank;
use terms::half::VOLATILITIES;

impl<'a, B: Bank> Desk<'a, B> {
    // What a future is charged at a point, where a column holds prices. Two tests: after one `||` no proof knows which of them held.
    fn charged(&self, line: usize, point: usize, column: usize) -> i64
        ensures value { result ≡ charged self.now.last (deck_cards self.now.deck.now) (book_of self.now.book) line point column }
        ensures size { unsigned_abs result ≤ 1088000000000000000 }
    {
        if line >= self.deck.futures {
            return 0;
        }
        if column >= VOLATILITIES {
            return 0;
        }
        let card = &self.deck.lines[line];
        self.charges_at(&Future { card }, line, point)
    }

    // The charges of a future at a point: the long charge at the first point and the short charge at the last.
    fn charges_at(&self, future: &Future, line: usize, point: usize) -> i64
        requires { future.now.card.now ≡ line_of (deck_cards self.now.deck.now) line }
        ensures value { result ≡ charges_at self.now.last (deck_cards self.now.deck.now) (book_of self.now.book) line point }
        ensures size { unsigned_abs result ≤ 1088000000000000000 }
    {
        let long = future.charge_if(point == 0, self.book.long_reach(line));
        let short = future.charge_if(point == self.last, self.book.short_reach(line));
        long + short
    }

    // What a line adds to its month's cell.
    pub(crate) fn line(&self, line: usize, point: usize, column: usize) -> i64
        ensures value { result ≡ line_share self.now.last (B.Bank.meaning self.now.bank.now).price (deck_cards self.now.deck.now) (book_of self.now.book) line point column }
        ensures size { unsigned_abs result ≤ 2 ^ 61 }
    {
        let quote = self.quote(line, point, column);
        let held = quote.position_result(self.book.position(line));
        let orders = self.book.over_orders(line, |order| quote.order_loss(order));
        held - self.charged(line, point, column) + orders
    }
}
