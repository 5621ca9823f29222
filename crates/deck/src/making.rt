// From the cards that a caller gives to cards that have been judged.
ghost use Rattle.std.specs.Prelude.{◌≡◌, IfOk, None};
ghost use Rattle.deck.specs.Decks.{deck_cards, given_cards, refusal_of, DeckOutcome};
ghost use Rattle.deck.specs.Judgements.{cards_judged};

use crate::deck::Deck;
use crate::given::Given;
use std::alloc::{AllocError, Global};
use terms::cards::Held;
use terms::fault::Fault;

impl Deck {
    // The cards of an account that begins with these held records beside a bank of so many lines; or the first refusal that
    // applies, or want of memory.
    pub fn judged(
        heap: Global,
        given: &Given,
        held: &[Held],
        bank_lines: usize,
    ) -> Result<Deck, Fault>
        ensures { DeckOutcome result (given_cards given.now) (cards_judged bank_lines (given_cards given.now) held.now) }
    {
        given.accepted(held, bank_lines)?;
        Ok(copied(heap, given, held, bank_lines)?)
    }
}

// The cards that were judged, copied.
fn copied(heap: Global, given: &Given, held: &[Held], bank_lines: usize) -> Result<Deck, AllocError>
    requires { refusal_of (cards_judged bank_lines (given_cards given.now) held.now) ≡ None }
    ensures { IfOk result (λ d. deck_cards d ≡ given_cards given.now) }
{
    let families = Vec::from_slice(heap, given.families)?;
    let baskets = Vec::from_slice(heap, given.baskets)?;
    let months = Vec::from_slice(heap, given.months)?;
    let lines = Vec::from_slice(heap, given.lines)?;
    Ok(Deck {
        families,
        baskets,
        months,
        lines,
        futures: given.futures,
    })
}
