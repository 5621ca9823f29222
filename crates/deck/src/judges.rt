// Which cards and held records fit: the names that name something, and the numbers that lie in their fields.
ghost use Rattle.std.specs.Prelude.{◌≡◌, ◌<◌, length, IfSome};
ghost use Rattle.terms.specs.Judging.{failing};
ghost use Rattle.deck.specs.Judgements.{name_fits, rule_fits, family_fits, basket_fits, month_fits, line_fits, held_fits, is_first};

use terms::amounts::{MOST_CONTRACTS, MOST_PRICE};
use terms::cards::{Basket, Family, Held, Line, Month, between};
use terms::judge::first_unfit;

// Whether a name names one of so many. By try_from it takes a third more time.
pub(crate) fn names(count: usize, name: i64) -> bool
    ensures { result ≡ name_fits count name }
{
    0 <= name && (name as usize) < count
}

// A rule is 0, half, or 1, netted: a number, as a card holds it.
fn rules(rule: i64) -> bool
    ensures { result ≡ rule_fits rule }
{
    between(rule, 0, 1)
}

// Whether no record before a place holds the line.
fn is_first(line: i64, all: &[Held], place: usize) -> bool
    ensures { result ≡ is_first line all.now place }
{
    all.iter().take(place).all(|record| record.line != line)
}

// Whether a held record names a line that none before it holds, and its numbers lie in their fields.
fn holds(lines: usize, all: &[Held], place: usize, held: &Held) -> bool
    ensures { result ≡ held_fits lines all.now place held.now }
{
    let named = names(lines, held.line) && is_first(held.line, all, place);
    named
        && between(held.net, -MOST_CONTRACTS, MOST_CONTRACTS)
        && between(held.price, 0, MOST_PRICE)
}

// The place of the first family that does not fit.
pub(crate) fn unfit_family(families: &[Family]) -> Option<usize>
    ensures value { result ≡ failing (λ _. family_fits) 0 families.now }
    ensures inside { IfSome result (λ place. place < length families.now) }
{
    first_unfit(
        families,
        |_, card| rules(card.rule) && between(card.window, 0, 16),
    )
}

// The place of the first basket that does not fit beside so many families.
pub(crate) fn unfit_basket(families: usize, baskets: &[Basket]) -> Option<usize>
    ensures value { result ≡ failing (λ _. basket_fits families) 0 baskets.now }
    ensures inside { IfSome result (λ place. place < length baskets.now) }
{
    first_unfit(
        baskets,
        |_, card| names(families, card.family) && rules(card.rule),
    )
}

// The place of the first month that does not fit beside so many baskets.
pub(crate) fn unfit_month(baskets: usize, months: &[Month]) -> Option<usize>
    ensures value { result ≡ failing (λ _. month_fits baskets) 0 months.now }
    ensures inside { IfSome result (λ place. place < length months.now) }
{
    first_unfit(months, |_, card| names(baskets, card.basket))
}

// The place of the first line that does not fit beside so many months. The first so many lines are futures.
pub(crate) fn unfit_line(months: usize, futures: usize, lines: &[Line]) -> Option<usize>
    ensures value { result ≡ failing (line_fits months futures) 0 lines.now }
    ensures inside { IfSome result (λ place. place < length lines.now) }
{
    first_unfit(lines, |place, card| {
        names(months, card.month) && (futures <= place || card.fits_a_future())
    })
}

// The place of the first held record that does not fit beside so many lines.
pub(crate) fn unfit_record(lines: usize, held: &[Held]) -> Option<usize>
    ensures value { result ≡ failing (held_fits lines held.now) 0 held.now }
    ensures inside { IfSome result (λ place. place < length held.now) }
{
    first_unfit(held, |place, record| holds(lines, held, place, record))
}
