// A month's cells, from a bank's prices, an account's cards and its book.
ghost use Rattle.std.specs.Prelude.{◌≡◌, ℕ, ◌*◌, ◌^◌, ◌<◌, ◌≤◌, length, pos, slice_index_or, unsigned_abs};
ghost use Rattle.cells.specs.Books.{book_of};
ghost use Rattle.cells.specs.Shares.{month_share};
ghost use Rattle.deck.specs.Decks.{deck_cards};
ghost use Rattle.layers.specs.Rows.{Holds};
ghost use Rattle.layers.specs.Tables.{at_place};

use crate::book::Book;
use crate::quote::Quote;
use banks::bank::Bank;
use deck::deck::Deck;
use layers::month_cells::CELLS;
use layers::naming::names;
use std::array;
use terms::half::{COLUMNS, MOST_POINTS};

// What cells are worked out from. The last point stands beside the bank: a caller may set it, so nothing is held of it.
#[derive(Drop)]
pub struct Desk<'a, B> {
    pub bank: &'a B,
    pub deck: &'a Deck,
    pub book: Book<'a>,
    pub last: usize,
}

// The table whose cells a closure answers, place by place. It is apart from the desk's own, since a search through all that
// `array::from_fn` says of 952 calls finds no proof there.
fn table_of<F: Fn(usize) -> i128>(cell: F) -> [i128; CELLS]
    requires { F.IsAlwaysCallable cell }
    ensures long { length result ≡ 952 }
    ensures each { (k : ℕ) → k < 952 → F.post cell k (slice_index_or result k (pos 0)) }
{
    array::from_fn(cell)
}

impl<'a, B: Bank> Desk<'a, B> {
    // What a line's contract is worth in a cell. This is the one place where the margin asks the bank.
    pub(crate) fn quote(&self, line: usize, p: usize, k: usize) -> Quote
        ensures price { result.price ≡ (B.Bank.meaning self.now.bank.now).price line p k }
        ensures column { result.column ≡ k }
    {
        let price = self.bank.price(line, p, k);
        Quote { price, column: k }
    }

    // A month's cell at a point and in a column. Added up in a loop: of a signed sum std's chains give no bound.
    fn month_cell(&self, m: usize, p: usize, k: usize) -> i128
        ensures value { result ≡ month_share self.now.last (B.Bank.meaning self.now.bank.now).price (deck_cards self.now.deck.now) (book_of self.now.book) m p k }
        ensures size { unsigned_abs result ≤ 16 * 2 ^ 61 }
    {
        let mut sum: i128 = 0;
        for (line, card) in self.deck.lines.iter().enumerate() {
            if names(card.month, m) {
                sum += i128::from(self.line(line, p, k));
            }
        }
        sum
    }

    // The cell that stands at a place of the table.
    fn cell_at(&self, place: usize) -> i128
        ensures value { result ≡ at_place (month_share self.now.last (B.Bank.meaning self.now.bank.now).price (deck_cards self.now.deck.now) (book_of self.now.book)) place }
        ensures size { unsigned_abs result ≤ 2 ^ 70 }
    {
        self.month_cell(
            place / (MOST_POINTS * COLUMNS),
            place % (MOST_POINTS * COLUMNS) / COLUMNS,
            place % COLUMNS,
        )
    }

    // The cells of every month: for each, 17 points of seven columns.
    pub fn table(&self) -> [i128; CELLS]
        ensures { Holds (at_place (month_share self.now.last (B.Bank.meaning self.now.bank.now).price (deck_cards self.now.deck.now) (book_of self.now.book))) (2 ^ 70) 952 952 result }
    {
        table_of(|place| self.cell_at(place))
    }
}
