// The book of an account, with the orders that are open or with others in their place, and what must be blocked for it.
ghost use Rattle.std.specs.Prelude.{◌≡◌};
ghost use Rattle.cells.specs.Books.{book_of as as_book};
ghost use Rattle.deck.specs.Decks.{deck_cards};
ghost use Rattle.account.specs.Account.{book_of, margin_of};
ghost use Rattle.calls.specs.Accounts.{state_of, SmallOrders};
ghost use Rattle.calls.specs.Blockings.{BlockedFor};

use crate::accounts::Account;
use crate::rests::rests;
use banks::bank::Bank;
use cells::book::Book;
use cover::{Blocked, margin};
use margin::book::Open;

impl<B: Bank> Account<B> {
    // The positions, with these orders in place of the open ones.
    pub(crate) fn book_with<'a>(&'a self, orders: &'a [Open]) -> Book<'a>
        requires { SmallOrders orders.now }
        ensures { as_book result ≡ record { positions = self.now.positions.items; orders = orders.now } }
    {
        Book {
            positions: &self.positions,
            orders,
        }
    }

    // What must be blocked for the account as it is.
    pub(crate) fn blocked(&self) -> Blocked
        ensures amount { result.amount ≡ margin_of (state_of B.Bank.meaning self.now) }
        ensures parts { BlockedFor (B.Bank.meaning self.now.bank) (deck_cards self.now.deck) (book_of (state_of B.Bank.meaning self.now)) result }
    {
        let rests = rests(&self.orders);
        let book = self.book_with(&rests[..self.orders.len()]);
        margin(&self.bank, &self.deck, book)
    }
}
