// Fills and cancels.
ghost use Rattle.std.specs.Prelude.{◌≡◌, ◌≤◌, [], ◌∷◌, pos, ◌*ℤ◌, ◌≤ℤ◌, int_le, unsigned_abs};
ghost use Rattle.terms.specs.Checks.{unless};
ghost use Rattle.terms.specs.declared.refusal.Refusal.TheVariants.{MoreThanLeft, WorseThanLimit};
ghost use Rattle.account.specs.declared.call.Call.TheVariants.{Cancel, Fill};
ghost use Rattle.account.specs.Account.{Ended, StillLeft, quantity_fits, no_worse, moved as moved_by, step};
ghost use Rattle.calls.specs.Accounts.{state_of, told_as, MayMeet, judged};

use crate::accounts::Account;
use crate::limits::price_fits;
use crate::orders::{meet_at, place_of, with_sign_of};
use account::orders::Event;
use banks::bank::Bank;
use margin::book::{Open, Position};
use terms::amounts::{GRAINS, MOST_CONTRACTS};
use terms::refusal::Refusal;

// Whether so many contracts may be filled at once.
fn fill_fits(quantity: i64) -> bool
    ensures { result ≡ quantity_fits quantity }
{
    (1..=MOST_CONTRACTS).contains(&quantity)
}

// A buy is filled at no more than its limit, a sell at no less.
#[tactic(auto, unfolding(account::specs::Account::no_worse))]
fn no_worse(order: Open, price: i64) -> bool
    ensures { result ≡ no_worse order price }
{
    if 0 <= order.left {
        price <= order.limit
    } else {
        order.limit <= price
    }
}

// Checks a fill of an order.
fn check_fill(order: Open, quantity: i64, price: i64) -> Result<(), Refusal>
    requires { pos 1 ≤ℤ quantity }
    ensures { result ≡ judged (unless (int_le quantity (pos (unsigned_abs order.left))) MoreThanLeft ∷ unless (no_worse order price) WorseThanLimit ∷ []) }
{
    if quantity.unsigned_abs() > order.left.unsigned_abs() {
        return Err(Refusal::MoreThanLeft);
    }
    if !no_worse(order, price) {
        return Err(Refusal::WorseThanLimit);
    }
    Ok(())
}

// What contracts cost in grains, at a kopeck each.
fn in_grains(contracts: i64) -> i64
    requires { unsigned_abs contracts ≤ 10000 }
    ensures value { result ≡ pos 80000 *ℤ contracts }
    ensures size { unsigned_abs result ≤ 800000000 }
{
    GRAINS as i64 * contracts
}

// Contracts at a price in kopecks, those bought positive and those sold negative.
#[derive(Clone, Copy)]
pub(crate) struct Trade {
    pub(crate) contracts: i64,
    pub(crate) price: i64,
    ghost few: { unsigned_abs contracts ≤ 10000 },
    ghost fair: { unsigned_abs price ≤ 10000000 },
}

impl Trade {
    // What the contracts cost at the price, in grains.
    pub(crate) fn cost(self) -> i64
        ensures value { result ≡ pos 80000 *ℤ self.contracts *ℤ self.price }
        ensures size { unsigned_abs result ≤ 8000000000000000 }
    {
        in_grains(self.contracts) * self.price
    }
}

// A position after a trade.
fn moved(position: Position, trade: Trade) -> Position
    requires net { unsigned_abs position.net ≤ 10000 }
    requires cost { unsigned_abs position.cost ≤ 24000000000000000 }
    ensures { result ≡ moved_by position trade.contracts trade.price }
{
    Position {
        net: position.net + trade.contracts,
        cost: position.cost + trade.cost(),
    }
}

impl<B: Bank> Account<B> {
    // The place of the order that a cancel meets.
    fn cancellable(&self, number: i64) -> Result<usize, Refusal>
        ensures { MayMeet (state_of B.Bank.meaning self.now) number (Cancel number) result }
    {
        place_of(&self.orders, number).ok_or(Refusal::NoSuchOrder)
    }

    // The place of the order that a fill meets.
    fn fillable(&self, number: i64, quantity: i64, price: i64) -> Result<usize, Refusal>
        ensures { MayMeet (state_of B.Bank.meaning self.now) number (Fill number quantity price) result }
    {
        if !fill_fits(quantity) {
            return Err(Refusal::BadQuantity);
        }
        if !price_fits(price) {
            return Err(Refusal::BadPrice);
        }
        let place = place_of(&self.orders, number).ok_or(Refusal::NoSuchOrder)?;
        check_fill(self.orders[place].rest, quantity, price)?;
        Ok(place)
    }

    // The order of a number ends; answers the size that it had left.
    pub fn cancel(&mut self, number: i64) -> Result<u64, Refusal>
        ensures { (state_of B.Bank.meaning self.new, told_as Ended result) ≡ step (state_of B.Bank.meaning self.old) (Cancel number) }
    {
        let place = self.cancellable(number)?;
        let ended = self.orders[place].rest.left.unsigned_abs();
        meet_at(&mut self.orders, place, Event::Cancelled);
        Ok(ended)
    }

    // Contracts of an order are filled at a price; answers the size that is still left of it.
    pub fn fill(&mut self, number: i64, quantity: i64, price: i64) -> Result<u64, Refusal>
        ensures { (state_of B.Bank.meaning self.new, told_as StillLeft result) ≡ step (state_of B.Bank.meaning self.old) (Fill number quantity price) }
    {
        let place = self.fillable(number, quantity, price)?;
        let order = self.orders[place].rest;
        let contracts = with_sign_of(order.left, quantity);
        let trade = Trade { contracts, price };
        self.positions[order.line] = moved(self.positions[order.line], trade);
        Ok(meet_at(&mut self.orders, place, Event::Filled(quantity)))
    }
}
