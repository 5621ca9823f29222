// The margin of a book: what must be blocked, from a bank of any make, judged cards, positions and open orders; and a world in
// which the book loses that much.
#![tactic(auto)]

ghost use Rattle.std.specs.Prelude.{◌≡◌};
ghost use Rattle.margin.specs.Worlds.{listed_world};
ghost use Rattle.deck.specs.Decks.{deck_cards};
ghost use Rattle.cells.specs.Books.{book_of};
ghost use Rattle.cover.specs.Margins.{amount_for, losses_for, worsts_for, costliest_for, world_for, LeastCoverFor, WorstFor, LowestFor};

pub mod judged;

use banks::bank::Bank;
use cells::book::Book;
use cells::{counted_orders, month_cells};
use deck::deck::Deck;
use layers::outcome::worked_out;
use margin::choice::{MOST_FAMILIES, World};

// What must be blocked for a book, in kopecks; what each family loses, in grains; the worst result of its row, with its first
// point; the family that loses most; and the world handed out. Apart from the layers' `Outcome`, since a world also has its
// orders, of which the layers know nothing.
#[derive(Clone, Copy, PartialEq, Eq, Debug)]
pub struct Blocked {
    pub amount: u64,
    pub losses: [u128; MOST_FAMILIES],
    pub worsts: [(i128, usize); MOST_FAMILIES],
    pub costliest: usize,
    pub world: World,
}

// The margin of a book. It is the least whole number of kopecks that no world's loss exceeds. The world answered is one of the
// worlds, and none loses more; among equals it takes the lowest point and column.
pub fn margin<'a, B: Bank>(bank: &'a B, deck: &'a Deck, book: Book<'a>) -> Blocked
    ensures amount { result.amount ≡ amount_for (B.Bank.meaning bank.now) (deck_cards deck.now) (book_of book.entry) }
    ensures losses { result.losses ≡ losses_for (B.Bank.meaning bank.now) (deck_cards deck.now) (book_of book.entry) }
    ensures worsts { result.worsts ≡ worsts_for (B.Bank.meaning bank.now) (deck_cards deck.now) (book_of book.entry) }
    ensures costliest { result.costliest ≡ costliest_for (B.Bank.meaning bank.now) (deck_cards deck.now) (book_of book.entry) }
    ensures world { listed_world result.world ≡ world_for (B.Bank.meaning bank.now) (deck_cards deck.now) (book_of book.entry) }
    ensures least_cover { LeastCoverFor (B.Bank.meaning bank.now) (deck_cards deck.now) (book_of book.entry) }
    ensures worst { WorstFor (B.Bank.meaning bank.now) (deck_cards deck.now) (book_of book.entry) (listed_world result.world) }
    ensures lowest { LowestFor (B.Bank.meaning bank.now) (deck_cards deck.now) (book_of book.entry) (listed_world result.world) }
{
    let cells = month_cells(bank, deck, book);
    let found = worked_out(deck, &cells, bank.half());
    let orders = counted_orders(bank, deck, book, &found.baskets, &found.months);
    Blocked {
        amount: found.amount,
        losses: found.losses,
        worsts: found.worsts,
        costliest: found.costliest,
        world: World {
            families: found.families,
            baskets: found.baskets,
            months: found.months,
            orders,
        },
    }
}
