// What an account is given to begin with.
ghost use Rattle.std.specs.Prelude.{◌≡◌};
ghost use Rattle.deck.specs.Judgements.{first_unfit, counted, cards_judged};
ghost use Rattle.deck.specs.Decks.{given_cards, refusal_of};

use crate::judges::{unfit_basket, unfit_family, unfit_line, unfit_month, unfit_record};
use margin::choice::{MOST_BASKETS, MOST_FAMILIES, MOST_MONTHS};
use terms::amounts::MOST_LINES;
use terms::cards::{Basket, Family, Held, Line, Month};
use terms::refusal::Refusal;

// The cards of a session. The first `futures` lines are futures, and the rest are options: they are one list, since lines are
// numbered through futures and options.
#[derive(Clone, Copy, Drop)]
pub struct Given<'a> {
    pub families: &'a [Family],
    pub baskets: &'a [Basket],
    pub months: &'a [Month],
    pub lines: &'a [Line],
    pub futures: usize,
}

impl<'a> Given<'a> {
    // The first refusal of these cards and held records beside a bank of so many lines, if one applies.
    // For callers that want the refusal alone; inside, `accepted` is passed on by `?`.
    pub fn refusal(&self, held: &[Held], bank_lines: usize) -> Option<Refusal>
        ensures { result ≡ refusal_of (cards_judged bank_lines (given_cards self.now) held.now) }
    {
        self.accepted(held, bank_lines).err()
    }

    // Refuses what an account may not begin with.
    pub(crate) fn accepted(&self, held: &[Held], bank_lines: usize) -> Result<(), Refusal>
        ensures { refusal_of result ≡ refusal_of (cards_judged bank_lines (given_cards self.now) held.now) }
    {
        if let Some(place) = self.first_unfit(held) {
            return Err(Refusal::BadCard(place));
        }
        if !self.is_counted(bank_lines) {
            return Err(Refusal::WrongShape);
        }
        Ok(())
    }

    // The place of the first card or held record that does not fit, counted through all lists.
    pub fn first_unfit(&self, held: &[Held]) -> Option<usize>
        ensures { result ≡ first_unfit (given_cards self.now) held.now }
    {
        let Given {
            families,
            baskets,
            months,
            lines,
            futures,
        } = *self;
        let first_basket = families.len();
        let first_month = first_basket + baskets.len();
        let first_line = first_month + months.len();
        let first_record = first_line + lines.len();
        unfit_family(families)
            .or_else(|| unfit_basket(families.len(), baskets).map(|place| first_basket + place))
            .or_else(|| unfit_month(baskets.len(), months).map(|place| first_month + place))
            .or_else(|| unfit_line(months.len(), futures, lines).map(|place| first_line + place))
            .or_else(|| unfit_record(lines.len(), held).map(|place| first_record + place))
    }

    // Whether there are as many of each kind as there may be.
    fn is_counted(&self, bank_lines: usize) -> bool
        ensures { result ≡ counted bank_lines (given_cards self.now) }
    {
        let lines = self.lines.len();
        (1..=MOST_FAMILIES).contains(&self.families.len())
            && (1..=MOST_BASKETS).contains(&self.baskets.len())
            && (1..=MOST_MONTHS).contains(&self.months.len())
            && (1..=MOST_LINES).contains(&lines)
            && lines == bank_lines
            && (1..=lines).contains(&self.futures)
    }
}
