// A strip: the prices of futures, worked out from their cards. It copies what it needs of each card when it is made,
// so that a price takes no walk over the cards.
ghost use Rattle.std.specs.Prelude.{◌≡◌, ℕ, ◌*◌, ◌<◌, ◌≤◌, true, length, pos, ◌+ℤ◌, ◌-ℤ◌, ◌*ℤ◌, slice_index_or, unsigned_abs};
ghost use Rattle.terms.specs.Checks.{MadeExactlyWhen};
ghost use Rattle.banks.specs.Outcomes.{told};
ghost use Rattle.banks.specs.Soundness.{bounded_sound};
ghost use Rattle.banks.specs.Strips.{quote_of, quoted, quote_reach, strip_reach, no_line, no_quote, strip_judged, strip_made, strip_meaning, MayStrip};
ghost use Rattle.terms.specs.Cards.{future_fits};
ghost use Rattle.terms.specs.Halves.{half_size, steps_of};
ghost use Rattle.std.specs.List.{All};

use crate::bank::Bank;
use crate::size::{MOST_LINES, MOST_REACH, capped, has_cell};
use std::array;
use terms::amounts::GRAINS;
use terms::cards::Line;
use terms::half::{Half, VOLATILITIES};
use terms::judge::first_unfit;
use terms::refusal::Refusal;

// A future in grains: its price, what its price moves by from point to point, and what a move of the rate curve changes it by.
#[derive(Clone, Copy, Default)]
struct Quote {
    base: u64,
    step: u64,
    change: u64,
}

#[derive(Clone, Copy)]
pub struct Strip {
    half: Half,
    count: usize,
    reach: u64,
    // room for as many lines as a bank may have, of which `count` are used: a bank is copied as one plain value, and never allocates
    quotes: [Quote; MOST_LINES],
}

impl Bank for Strip {
    ghost meaning = { strip_meaning };

    ghost sound = { λ s. bounded_sound s.half s.count s.reach (λ line. quoted s.half (slice_index_or s.quotes line no_quote)) };

    fn half(&self) -> Half {
        self.half
    }

    // of its own field, as a table's: a trait has no fields
    fn lines(&self) -> usize {
        self.count.clamp(1, MOST_LINES)
    }

    fn reach(&self) -> u64 {
        self.reach.min(MOST_REACH)
    }

    fn price(&self, line: usize, point: usize, column: usize) -> i64 {
        if has_cell(self.half, self.lines(), line, point, column) {
            let quote = self.quotes[line];
            capped(self.reach, quote.price(self.half, point, column))
        } else {
            0
        }
    }
}

impl Strip {
    // Works out the prices of futures from their cards; the months are unread. Refused where a card has a number outside its
    // field or its rates or limits fall, then where no grid has the half, or where there are no cards or too many.
    pub fn new(half: i64, futures: &[Line]) -> Result<Strip, Refusal>
        ensures made { told strip_meaning result ≡ strip_made half futures.now }
        ensures law { MadeExactlyWhen result (MayStrip half futures.now) }
    {
        let half = judged(half, futures)?;
        let fitting = Futures {
            half,
            cards: futures,
        };
        Ok(Strip {
            half,
            count: futures.len(),
            reach: fitting.reach(),
            quotes: fitting.quotes(),
        })
    }
}

// The grid of cards that may be a strip, or the first refusal.
fn judged(half: i64, futures: &[Line]) -> Result<Half, Refusal>
    ensures { result ≡ strip_judged half futures.now }
{
    if let Some(card) = first_unfit(futures, |_, card| card.fits_a_future()) {
        return Err(Refusal::BadCard(card));
    }
    let grid = Half::of(half).ok_or(Refusal::WrongShape)?;
    if futures.is_empty() || futures.len() > MOST_LINES {
        return Err(Refusal::WrongShape);
    }
    Ok(grid)
}

// The cards of a strip's futures on the grid of a half. Each of them fits, and there are no more than a bank may have lines.
#[derive(Clone, Copy)]
struct Futures<'a> {
    half: Half,
    cards: &'a [Line],
    ghost fitting: { All (λ card. future_fits card ≡ true) cards.now },
    ghost few: { length cards.now ≤ 16 },
}

impl Futures<'_> {
    // The greatest size that a price or a change of these futures can have.
    fn reach(&self) -> u64
        ensures { result ≡ strip_reach self.now.half self.now.cards.now }
    {
        self.cards
            .iter()
            .map(|card| reach_of(self.half, card))
            .max()
            .unwrap_or(0)
    }

    // What a strip keeps of them, with room for as many as a bank may have.
    fn quotes(&self) -> [Quote; MOST_LINES]
        ensures long { length result ≡ 16 }
        ensures each { (k : ℕ) → k < length self.now.cards.now → slice_index_or result k no_quote ≡ quote_of self.now.half (slice_index_or self.now.cards.now k no_line) }
    {
        array::from_fn(|k| self.quote(k))
    }

    // What a strip keeps of the future at a place; past the last one any quote will do, since no price is read from it.
    fn quote(&self, k: usize) -> Quote
        ensures { k < length self.now.cards.now → result ≡ quote_of self.now.half (slice_index_or self.now.cards.now k no_line) }
    {
        match self.cards.get(k) {
            Some(card) => Quote::of(self.half, card),
            None => Quote::default(),
        }
    }
}

// The greatest size that a price or a change of a future can have.
fn reach_of(half: Half, card: &Line) -> u64
    requires { future_fits card.now ≡ true }
    ensures { result ≡ quote_reach half (quote_of half card.now) }
{
    let quote = Quote::of(half, card);
    let moved = half.size() as u64 * quote.step;
    (quote.base + moved).max(quote.change)
}

impl Quote {
    // What a strip keeps of a future.
    fn of(half: Half, card: &Line) -> Quote
        requires { future_fits card.now ≡ true }
        ensures { result ≡ quote_of half card.now }
    {
        Quote::new(
            half,
            card.price.unsigned_abs(),
            card.rates.r1.unsigned_abs(),
            card.spot.unsigned_abs(),
            card.change.unsigned_abs(),
        )
    }

    // The same from the sizes of a card's numbers: over five fields of a card at once the products were not proved to fit.
    fn new(half: Half, price: u64, rate: u64, spot: u64, change: u64) -> Quote
        requires price_fits { price ≤ 10000000 }
        requires rate_fits { rate ≤ 10000 }
        requires spot_fits { spot ≤ 10000000 }
        requires change_fits { change ≤ 1000000 }
        ensures { result ≡ record { base = 80000 * price; step = steps_of half * (rate * spot); change = 80000 * change } }
    {
        let eighth = rate * spot;
        Quote {
            base: GRAINS * price,
            step: half.eighths() as u64 * eighth,
            change: GRAINS * change,
        }
    }

    // The price at a point and in a column: on the volatility curves, as many steps from the base as the point lies from the middle.
    fn price(self, half: Half, point: usize, column: usize) -> i128
        requires { point < 17 }
        ensures { result ≡ quoted half self point column }
    {
        match column {
            0..VOLATILITIES => i128::from(self.base) + steps(from_middle(half, point), self.step),
            3 => -i128::from(self.change),
            4 => i128::from(self.change),
            _ => 0,
        }
    }
}

// How many points a point lies above the middle one.
fn from_middle(half: Half, point: usize) -> i128
    requires { point < 17 }
    ensures value { result ≡ pos point -ℤ pos (half_size half) }
    ensures bounded { unsigned_abs result ≤ 17 }
{
    point as i128 - half.size() as i128
}

// A number of steps, up or down.
fn steps(count: i128, step: u64) -> i128
    requires { unsigned_abs count ≤ 17 }
    ensures value { result ≡ count *ℤ pos step }
    ensures bounded { unsigned_abs result ≤ 17 * step }
{
    count * i128::from(step)
}
