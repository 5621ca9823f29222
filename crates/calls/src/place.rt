// Orders are placed.
ghost use Rattle.std.specs.Prelude.{◌≡◌, ◌+◌, ◌<◌, ◌≤◌, ◌∷◌, length, pos, Ok, nat_le, nat_lt, slice_index, unsigned_abs};
ghost use Rattle.terms.specs.Checks.{unless};
ghost use Rattle.terms.specs.declared.refusal.Refusal.TheVariants.{OrdersFull};
ghost use Rattle.account.specs.declared.call.Call.TheVariants.{Place};
ghost use Rattle.cells.specs.Books.{book_of as as_book};
ghost use Rattle.account.specs.Account.{Numbered, quantity_fits, book_net_fits, bound_checks, checks, placed as placed_in, step};
ghost use Rattle.calls.specs.Accounts.{state_of, told_as, margin_with, book_with, trial_checks, judged};

use crate::accounts::Account;
use crate::limits::{MOST_ACCEPTED, price_fits};
use crate::rests::rests;
use account::orders::{Order, OrderState};
use banks::bank::Bank;
use cells::book::{Book, MOST_ORDERS};
use cells::open::{open_buys, open_sells};
use cover::margin;
use margin::book::Open;
use terms::amounts::MOST_CONTRACTS;
use terms::refusal::Refusal;

// The order that a call asks for, of a line that there is.
fn asked(line: i64, quantity: i64, limit: i64) -> Open
    ensures { result ≡ record { line = unsigned_abs line; left = quantity; limit = limit } }
{
    Open {
        line: line.unsigned_abs() as usize,
        left: quantity,
        limit,
    }
}

// Whether an order may have so many contracts.
fn quantity_fits(contracts: u64) -> bool
    ensures { result ≡ quantity_fits (pos contracts) }
{
    (1..=MOST_CONTRACTS as u64).contains(&contracts)
}

// Whether neither what a line may come to hold, nor what it may come to be short of, is too large.
fn net_fits(book: Book, line: usize) -> bool
    requires { line < length book.positions.now }
    ensures { result ≡ book_net_fits (as_book book.entry) line }
{
    let net = book.positions[line].net;
    net + open_buys(book, line) <= MOST_CONTRACTS && open_sells(book, line) - net <= MOST_CONTRACTS
}

impl<B: Bank> Account<B> {
    // Whether the line of an order accepts its contracts too. That there is such a line is a fact of this account, which no type
    // of the order alone could hold.
    fn count_fits(&self, order: Open) -> bool
        requires { order.line < length self.now.positions.items }
        ensures { result ≡ nat_le (slice_index self.now.accepted.items order.line + unsigned_abs order.left) 20000 }
    {
        self.accepted[order.line] + order.left.unsigned_abs() <= MOST_ACCEPTED
    }

    // Whether the collateral covers a book.
    fn covers<'a>(&'a self, book: Book<'a>) -> bool
        ensures { result ≡ nat_le (margin_with (state_of B.Bank.meaning self.now) (as_book book.entry)) self.now.collateral }
    {
        margin(&self.bank, &self.deck, book).amount <= self.collateral
    }

    // Checks an order by the book that it makes.
    fn check_trial<'a>(&'a self, book: Book<'a>, order: Open) -> Result<(), Refusal>
        requires line { order.line < length self.now.positions.items }
        requires book { order.line < length book.positions.now }
        ensures { result ≡ judged (trial_checks (state_of B.Bank.meaning self.now) (as_book book.entry) order.line (unsigned_abs order.left)) }
    {
        if !net_fits(book, order.line) {
            return Err(Refusal::NetTooLarge);
        }
        if !self.count_fits(order) {
            return Err(Refusal::TooManyContracts);
        }
        if !self.covers(book) {
            return Err(Refusal::NotCovered);
        }
        Ok(())
    }

    // Checks an order whose own numbers are fine.
    fn check_with_book(&self, order: Open) -> Result<(), Refusal>
        requires line { order.line < length self.now.positions.items }
        requires left { unsigned_abs order.left ≤ 10000 }
        requires limit { unsigned_abs order.limit ≤ 10000000 }
        ensures { result ≡ judged (unless (nat_lt (length self.now.orders.items) 32) OrdersFull ∷ trial_checks (state_of B.Bank.meaning self.now) (book_with (state_of B.Bank.meaning self.now) order) order.line (unsigned_abs order.left)) }
    {
        let count = self.orders.len();
        if count >= MOST_ORDERS {
            return Err(Refusal::OrdersFull);
        }
        let mut trial = rests(&self.orders);
        trial[count] = order;
        let book = self.book_with(&trial[..count + 1]);
        self.check_trial(book, order)
    }

    // Checks an order.
    fn check_place(&self, line: i64, quantity: i64, limit: i64) -> Result<(), Refusal>
        ensures { result ≡ judged (checks (state_of B.Bank.meaning self.now) (Place line quantity limit)) }
    {
        if !self.deck.has_line(line) {
            return Err(Refusal::NoSuchLine);
        }
        if !quantity_fits(quantity.unsigned_abs()) {
            return Err(Refusal::BadQuantity);
        }
        if !price_fits(limit) {
            return Err(Refusal::BadPrice);
        }
        self.check_with_book(asked(line, quantity, limit))
    }

    // The order goes to the end of the list.
    fn placed(&mut self, order: Open) -> u64
        requires { judged (bound_checks (state_of B.Bank.meaning self.old) (pos order.line) order.left order.limit) ≡ Ok tt }
        ensures state { state_of B.Bank.meaning self.new ≡ placed_in (state_of B.Bank.meaning self.old) (pos order.line) order.left order.limit }
        ensures number { result ≡ self.old.next }
    {
        let number = self.next;
        self.orders.push_reserved(Order {
            number,
            rest: order,
            state: OrderState::Untouched,
        });
        self.accepted[order.line] += order.left.unsigned_abs();
        self.next += 1;
        number
    }

    // A new order: contracts of a line, those to buy positive and those to sell negative, and a limit price in kopecks. Answers
    // its number.
    pub fn place(&mut self, line: i64, quantity: i64, limit: i64) -> Result<u64, Refusal>
        ensures { (state_of B.Bank.meaning self.new, told_as Numbered result) ≡ step (state_of B.Bank.meaning self.old) (Place line quantity limit) }
    {
        self.check_place(line, quantity, limit)?;
        Ok(self.placed(asked(line, quantity, limit)))
    }
}
