// How an account begins.
ghost use Rattle.std.specs.Prelude.{◌≡◌, ◌≤◌, length, replicate, IfOk, None, Ok, vec_len, unsigned_abs};
ghost use Rattle.terms.specs.Judging.{failing};
ghost use Rattle.deck.specs.Decks.{deck_cards, given_cards};
ghost use Rattle.deck.specs.Judgements.{held_fits, first_unfit, cards_judged};
ghost use Rattle.account.specs.Begin.{held_at, nothing, put_in, first_state, begin as begins};
ghost use Rattle.calls.specs.Accounts.{state_of};
ghost use Rattle.calls.specs.Begun.{BeginOutcome, CoverOutcome, with_cards};

use crate::accounts::Account;
use crate::limits::amount_of;
use crate::trades::Trade;
use banks::bank::Bank;
use cells::book::MOST_ORDERS;
use deck::deck::Deck;
use deck::given::Given;
use margin::book::Position;
use std::alloc::{AllocError, Global};
use terms::cards::Held;
use terms::fault::Fault;
use terms::refusal::Refusal;

// What a held record says of its line.
fn held_at(holding: &Held) -> Position
    requires net { unsigned_abs holding.now.net ≤ 10000 }
    requires price { unsigned_abs holding.now.price ≤ 10000000 }
    ensures { result ≡ held_at holding.now }
{
    let trade = Trade {
        contracts: holding.net,
        price: holding.price,
    };
    Position {
        net: holding.net,
        cost: trade.cost(),
    }
}

// Puts what is held into the positions.
fn put_in(positions: &mut Vec<Position>, held: &[Held])
    requires { failing (held_fits (length positions.old.items) held.now) 0 held.now ≡ None }
    ensures { positions.new.items ≡ put_in held.now positions.old.items }
{
    for holding in held {
        positions[holding.line.unsigned_abs() as usize] = held_at(holding);
    }
}

// The positions of an account that begins with these held records.
fn held_positions(heap: Global, held: &[Held], lines: usize) -> Result<Vec<Position>, AllocError>
    requires { failing (held_fits lines held.now) 0 held.now ≡ None }
    ensures { IfOk result (λ v. v.items ≡ put_in held.now (replicate lines nothing)) }
{
    let mut positions = Vec::from_elem(heap, Position::default(), lines)?;
    put_in(&mut positions, held);
    Ok(positions)
}

// An account with no orders yet, whose margin is still to be looked at.
fn opened<B: Bank + Drop>(
    heap: Global,
    bank: B,
    deck: Deck,
    held: &[Held],
    collateral: u64,
) -> Result<Account<B>, AllocError>
    requires held { first_unfit (deck_cards deck) held.now ≡ None }
    requires collateral { collateral ≤ 100000000000000 }
    ensures { IfOk result (λ a. state_of B.Bank.meaning a ≡ first_state (B.Bank.meaning bank) (deck_cards deck) held.now collateral) }
{
    let positions = held_positions(heap, held, deck.lines.len())?;
    let orders = Vec::with_capacity(heap, MOST_ORDERS)?;
    let accepted = Vec::from_elem(heap, 0, deck.lines.len())?;
    Ok(Account {
        bank,
        deck,
        positions,
        orders,
        accepted,
        next: 1,
        collateral,
    })
}

// An account whose collateral covers its margin.
fn covered<B: Bank + Drop>(account: Account<B>) -> Result<Account<B>, Fault>
    ensures { CoverOutcome B.Bank.meaning account result }
{
    if account.blocked().amount <= account.collateral {
        Ok(account)
    } else {
        Err(Refusal::NotCovered.into())
    }
}

// An account over judged cards. What it is made of comes apart, as begin takes it.
fn begin_with<B: Bank + Drop>(
    heap: Global,
    bank: B,
    deck: Deck,
    held: &[Held],
    collateral: i64,
) -> Result<Account<B>, Fault>
    requires { first_unfit (deck_cards deck) held.now ≡ None }
    ensures { BeginOutcome B.Bank.meaning result (Ok (deck_cards deck)) (with_cards (B.Bank.meaning bank) (deck_cards deck) held.now collateral) }
{
    let collateral = amount_of(collateral)?;
    covered(opened(heap, bank, deck, held, collateral)?)
}

// An account over a bank, with cards, held records and collateral in kopecks. It is refused by the first check that applies;
// want of memory is an error apart, and no call after this one allocates. What it is made of comes apart from the caller, and a
// struct of it would live for this one call.
pub fn begin<B: Bank + Drop>(
    heap: Global,
    bank: B,
    given: &Given,
    held: &[Held],
    collateral: i64,
) -> Result<Account<B>, Fault>
    ensures { BeginOutcome B.Bank.meaning result (cards_judged (B.Bank.meaning bank).lines (given_cards given.now) held.now) (begins (B.Bank.meaning bank) (given_cards given.now) held.now collateral) }
{
    let deck = Deck::judged(heap, given, held, bank.lines())?;
    begin_with(heap, bank, deck, held, collateral)
}
