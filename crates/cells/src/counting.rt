// In which cells of a world each open order is counted: where its month is kept, in each of the month's cells in which it loses.
ghost use Rattle.std.specs.Prelude.{◌≡◌, Some, None, slice_index_or};
ghost use Rattle.margin.specs.Book.{named, line as line_card, month as month_card};
ghost use Rattle.margin.specs.HandedOut.{order_loses, order_loses_in, order_counted_at};
ghost use Rattle.margin.specs.Worlds.{nowhere};
ghost use Rattle.deck.specs.Decks.{deck_cards};
ghost use Rattle.layers.specs.Rows.{ListsAll};
ghost use Rattle.cells.specs.Books.{book_of};
ghost use Rattle.cells.specs.Countings.{counted_from};

use crate::desk::Desk;
use crate::open_order::OpenOrder;
use banks::bank::Bank;
use deck::deck::Deck;
use layers::naming::number;
use margin::choice::{Counted, Kept, MOST_ORDERS};
use std::array;

// The number of a line's month; a line that is not there is read as one of month 0. This and the next are look-ups of two fields,
// which share the shape alone.
fn month_of(deck: &Deck, line: usize) -> usize
    ensures { result ≡ named (line_card (deck_cards deck.now) line).month }
{
    deck.lines.get(line).map_or(0, |card| number(card.month))
}

// The number of a month's basket.
fn basket_of(deck: &Deck, m: usize) -> usize
    ensures { result ≡ named (month_card (deck_cards deck.now) m).basket }
{
    deck.months.get(m).map_or(0, |card| number(card.basket))
}

// The choice that a list has at a place, and none beyond its end.
fn choice_at<T: Copy>(choices: &[Option<T>], i: usize) -> Option<T>
    ensures { result ≡ slice_index_or choices.now i None }
{
    choices.get(i).copied().flatten()
}

impl<'a, B: Bank> Desk<'a, B> {
    // Whether an order loses at a point and column.
    fn loses(&self, order: OpenOrder, p: usize, k: usize) -> bool
        ensures { result ≡ order_loses (B.Bank.meaning self.now.bank.now).price order.open p k }
    {
        self.quote(order.open.line, p, k).order_loses(order)
    }

    // The same in a column that may not be kept. By `is_some_and` the check finds no proof.
    fn loses_in(&self, order: OpenOrder, p: usize, column: Option<usize>) -> bool
        ensures { result ≡ order_loses_in (B.Bank.meaning self.now.bank.now).price order.open p column }
    {
        match column {
            Some(k) => self.loses(order, p, k),
            None => false,
        }
    }

    // The cells in which an order is counted whose month's basket stands at a point and whose month keeps these columns, where
    // neither is left out.
    fn counted_at(&self, order: OpenOrder, point: Option<usize>, kept: Option<Kept>) -> Counted
        ensures { result ≡ order_counted_at (B.Bank.meaning self.now.bank.now).price order.open point kept }
    {
        match (point, kept) {
            (Some(p), Some(columns)) => Counted {
                volatility: self.loses(order, p, columns.volatility),
                rate: self.loses_in(order, p, columns.rate),
                twist: self.loses_in(order, p, columns.twist),
            },
            _ => Counted::default(),
        }
    }

    // The cells in which the book's i-th order is counted, with its line's month and that month's basket.
    fn counted(&self, points: &[Option<usize>], columns: &[Option<Kept>], i: usize) -> Counted
        ensures { result ≡ counted_from (B.Bank.meaning self.now.bank.now).price (deck_cards self.now.deck.now) (book_of self.now.book) points.now columns.now i }
    {
        match self.book.order(i) {
            Some(order) => {
                let m = month_of(self.deck, order.open.line);
                let b = basket_of(self.deck, m);
                self.counted_at(order, choice_at(points, b), choice_at(columns, m))
            }
            None => Counted::default(),
        }
    }

    // The same of every order that there may be.
    pub(crate) fn all_counted(
        &self,
        points: &[Option<usize>],
        columns: &[Option<Kept>],
    ) -> [Counted; MOST_ORDERS]
        ensures { ListsAll nowhere (counted_from (B.Bank.meaning self.now.bank.now).price (deck_cards self.now.deck.now) (book_of self.now.book) points.now columns.now) result }
    {
        array::from_fn(|i| self.counted(points, columns, i))
    }
}
