// The open orders of a book, one by one and added up.
ghost use Rattle.std.specs.Prelude.{◌≡◌, ℕ, ◌*◌, ◌≤◌, length, ℤ, IfSome, is_none, true, unsigned_abs};
ghost use Rattle.margin.specs.Book.{over_orders, order as order_of};
ghost use Rattle.margin.specs.declared.book.Open.{Open as TheOpen};
ghost use Rattle.cells.specs.Books.{book_of};
ghost use Rattle.cells.specs.declared.open_order.OpenOrder.{OpenOrder as TheOrder};

use crate::book::Book;
use crate::open_order::OpenOrder;

impl<'a> Book<'a> {
    // The i-th order, if there are so many.
    pub(crate) fn order(&self, i: usize) -> Option<OpenOrder>
        ensures some { IfSome result (λ o. o.open ≡ order_of (book_of self.now) i) }
        ensures none { is_none result ≡ true → length self.now.orders.now ≤ i }
    {
        let open = *self.orders.get(i)?;
        Some(OpenOrder { open })
    }

    // What the open orders of a line add up to, each of which adds a part. Added up in a loop: of a signed sum std's chains give
    // no bound.
    pub(crate) fn over_orders<F: Fn(OpenOrder) -> i64>(&self, line: usize, part: F) -> i64
        requires callable { F.IsAlwaysCallable part }
        requires small { (o : TheOrder) (r : ℤ) → F.post part o r → unsigned_abs r ≤ 28000000000000000 }
        ensures value { (p : TheOpen → ℤ) → ((o : TheOrder) (r : ℤ) → F.post part o r → r ≡ p o.open) → result ≡ over_orders (book_of self.now) line (λ i. p (order_of (book_of self.now) i)) }
        ensures size { (most : ℕ) → ((o : TheOrder) (r : ℤ) → F.post part o r → unsigned_abs r ≤ most) → unsigned_abs result ≤ 32 * most }
    {
        let mut sum: i64 = 0;
        for open in self.orders {
            let order = OpenOrder { open: *open };
            if order.open.line == line {
                sum += part(order);
            }
        }
        sum
    }
}
