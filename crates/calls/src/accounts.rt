// An account that has begun. The invariant holds the bounds that no call can pass.
ghost use Rattle.std.specs.Prelude.{◌≤◌, vec_capacity};
ghost use Rattle.banks.specs.Meanings.{Meaning};
ghost use Rattle.deck.specs.Decks.{deck_cards};
ghost use Rattle.account.specs.Bounds.{InBounds};
ghost use Rattle.calls.specs.States.{state_with};

use account::orders::Order;
use deck::deck::Deck;
use margin::book::Position;

#[derive(Drop)]
pub struct Account<B> {
    pub(crate) bank: B,
    pub(crate) deck: Deck,
    // one for each line; apart from `accepted`, since views and margins read the positions as one slice
    pub(crate) positions: Vec<Position>,
    // the open orders, in the order of their numbers, with room for 32
    pub(crate) orders: Vec<Order>,
    // the contracts accepted on each line since the account began
    pub(crate) accepted: Vec<u64>,
    // the number that the next order will have
    pub(crate) next: u64,
    // in kopecks
    pub(crate) collateral: u64,
    ghost room: { 32 ≤ vec_capacity orders },
    ghost bounds: { ∥ ((bank : Meaning) → InBounds (state_with bank (deck_cards deck) positions.items orders.items accepted.items next collateral)) ∥₁ },
}
