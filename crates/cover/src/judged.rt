// The margin of positions and orders as a caller gives them, where their numbers lie within what an account may have.
ghost use Rattle.std.specs.Prelude.{◌≡◌, not, is_some, IfSome};
ghost use Rattle.terms.specs.Judging.{failing};
ghost use Rattle.margin.specs.Worlds.{listed_world};
ghost use Rattle.deck.specs.Decks.{deck_cards};
ghost use Rattle.cover.specs.Margins.{amount_for, losses_for, worsts_for, costliest_for, world_for, LeastCoverFor, WorstFor, LowestFor};
ghost use Rattle.cover.specs.Small.{small_position, small_order, small_book};

use crate::{Blocked, margin};
use banks::bank::Bank;
use cells::book::{Book, MOST_ORDERS};
use deck::deck::Deck;
use margin::book::{Open, Position};
use terms::amounts::{MOST_CONTRACTS, MOST_PRICE};
use terms::cards::between;

// More than any account's costs come to.
const MOST_COST: i64 = 1 << 56;

// Whether an account may have each of these positions.
fn may_hold(positions: &[Position]) -> bool
    ensures { result ≡ not (is_some (failing (λ _. small_position) 0 positions.now)) }
{
    positions.iter().all(|position| {
        between(position.net, -MOST_CONTRACTS, MOST_CONTRACTS)
            && between(position.cost, -MOST_COST, MOST_COST)
    })
}

// Whether it may have each of these open orders.
fn may_order(orders: &[Open]) -> bool
    ensures { result ≡ not (is_some (failing (λ _. small_order) 0 orders.now)) }
{
    orders.iter().all(|order| between(order.left, -MOST_CONTRACTS, MOST_CONTRACTS)
        && between(order.limit, 0, MOST_PRICE))
}

// Whether an account may have such positions and orders.
fn is_small(positions: &[Position], orders: &[Open]) -> bool
    ensures { result ≡ small_book positions.now orders.now }
{
    orders.len() <= MOST_ORDERS && may_hold(positions) && may_order(orders)
}

// The margin of positions, one for each line, and open orders; none where an account may not have such numbers.
pub fn margin_of<'a, B: Bank>(
    bank: &'a B,
    deck: &'a Deck,
    positions: &'a [Position],
    orders: &'a [Open],
) -> Option<Blocked>
    ensures answered { is_some result ≡ small_book positions.now orders.now }
    ensures amount { IfSome result (λ b. b.amount ≡ amount_for (B.Bank.meaning bank.now) (deck_cards deck.now) (record { positions = positions.entry.now; orders = orders.now })) }
    ensures losses { IfSome result (λ b. b.losses ≡ losses_for (B.Bank.meaning bank.now) (deck_cards deck.now) (record { positions = positions.entry.now; orders = orders.now })) }
    ensures worsts { IfSome result (λ b. b.worsts ≡ worsts_for (B.Bank.meaning bank.now) (deck_cards deck.now) (record { positions = positions.entry.now; orders = orders.now })) }
    ensures costliest { IfSome result (λ b. b.costliest ≡ costliest_for (B.Bank.meaning bank.now) (deck_cards deck.now) (record { positions = positions.entry.now; orders = orders.now })) }
    ensures world { IfSome result (λ b. listed_world b.world ≡ world_for (B.Bank.meaning bank.now) (deck_cards deck.now) (record { positions = positions.entry.now; orders = orders.now })) }
    ensures least_cover { LeastCoverFor (B.Bank.meaning bank.now) (deck_cards deck.now) (record { positions = positions.entry.now; orders = orders.now }) }
    ensures worst { IfSome result (λ b. WorstFor (B.Bank.meaning bank.now) (deck_cards deck.now) (record { positions = positions.entry.now; orders = orders.now }) (listed_world b.world)) }
    ensures lowest { IfSome result (λ b. LowestFor (B.Bank.meaning bank.now) (deck_cards deck.now) (record { positions = positions.entry.now; orders = orders.now }) (listed_world b.world)) }
{
    if !is_small(positions, orders) {
        return None;
    }
    let book = Book { positions, orders };
    Some(margin(bank, deck, book))
}
