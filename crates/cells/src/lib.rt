// What fills a month's cells: what the positions and open orders of its lines come to in every scenario, less charges; and in
// which cells of a world each open order is counted.
#![tactic(auto)]

ghost use Rattle.std.specs.Prelude.{◌≡◌};
ghost use Rattle.margin.specs.Cells.{cells as cells_of_book};
ghost use Rattle.margin.specs.Worlds.{nowhere};
ghost use Rattle.deck.specs.Decks.{deck_cards};
ghost use Rattle.layers.specs.Rows.{ListsAll};
ghost use Rattle.layers.specs.Tables.{table_cells};
ghost use Rattle.cells.specs.Books.{book_of};
ghost use Rattle.cells.specs.Countings.{counted_from};
ghost use Rattle.cells.specs.Grids.{last_of};

pub mod book;
mod charges;
mod counting;
pub mod desk;
mod lines;
pub mod open;
mod open_order;
mod orders;
mod products;
mod quote;
mod reaches;
mod results;

use crate::book::Book;
use crate::desk::Desk;
use banks::bank::Bank;
use deck::deck::Deck;
use layers::month_cells::MonthCells;
use margin::choice::{Counted, Kept, MOST_ORDERS};

// The cells of every month at a bank's prices.
pub fn month_cells<'a, B: Bank>(bank: &'a B, deck: &'a Deck, book: Book<'a>) -> MonthCells
    ensures { table_cells (last_of (B.Bank.meaning bank.now)) (deck_cards deck.now) result.cells ≡ cells_of_book (last_of (B.Bank.meaning bank.now)) (B.Bank.meaning bank.now).price (deck_cards deck.now) (book_of book.entry) }
{
    MonthCells {
        cells: desk_for(bank, deck, book).table(),
    }
}

// In which cells each open order of a book is counted in a world, by the baskets' points and the months' columns in it.
// They come apart, as the caller has them.
pub fn counted_orders<'a, B: Bank>(
    bank: &'a B,
    deck: &'a Deck,
    book: Book<'a>,
    points: &[Option<usize>],
    columns: &[Option<Kept>],
) -> [Counted; MOST_ORDERS]
    ensures { ListsAll nowhere (counted_from (B.Bank.meaning bank.now).price (deck_cards deck.now) (book_of book.entry) points.now columns.now) result }
{
    desk_for(bank, deck, book).all_counted(points, columns)
}

// The desk for a book, on the bank's own grid.
fn desk_for<'a, B: Bank>(bank: &'a B, deck: &'a Deck, book: Book<'a>) -> Desk<'a, B>
    ensures bank { result.bank ≡ bank.entry }
    ensures deck { result.deck ≡ deck.entry }
    ensures book { result.book ≡ book.entry }
    ensures last { result.last ≡ last_of (B.Bank.meaning bank.now) }
{
    Desk {
        bank,
        deck,
        book,
        last: bank.half().last(),
    }
}
