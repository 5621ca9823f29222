// Cards say how contracts net and what a future is worth; a session file has one form for each card.
// Their numbers stand as the caller or the file gave them, and are judged by the call that takes the card.
ghost use Rattle.std.specs.Prelude.{◌≡◌};
ghost use Rattle.terms.specs.Cards.{within, prices_fit, rates_fit, limits_fit, future_fits};

use crate::amounts::MOST_PRICE;

// A family: contracts whose spreads net across base assets.
#[derive(Clone, Copy, PartialEq, Eq, Debug, Default)]
pub struct Family {
    // 0 half, 1 netted: a number, as it was given, which the call that takes the card judges
    pub rule: i64,
    // how many points apart the baskets of a netted family may lie
    pub window: i64,
}

// A basket: contracts whose calendar spreads net.
#[derive(Clone, Copy, PartialEq, Eq, Debug, Default)]
pub struct Basket {
    pub family: i64,
    // 0 half, 1 netted: a number, as it was given, which the call that takes the card judges
    pub rule: i64,
}

// A month: the futures of one delivery month and the options on them.
#[derive(Clone, Copy, PartialEq, Eq, Debug, Default)]
pub struct Month {
    pub basket: i64,
}

// The risk rates of a future, in ten-thousandths of its spot price.
#[derive(Clone, Copy, PartialEq, Eq, Debug, Default)]
pub struct Rates {
    pub r1: i64,
    pub r2: i64,
    pub r3: i64,
}

// The contracts above which a future's second and third rate apply.
#[derive(Clone, Copy, PartialEq, Eq, Debug, Default)]
pub struct Limits {
    pub a: i64,
    pub b: i64,
}

// A line: one contract that can be held, a future or an option. An option has a month alone, and its other numbers are unread.
#[derive(Clone, Copy, PartialEq, Eq, Debug, Default)]
pub struct Line {
    pub month: i64,
    pub price: i64,
    pub spot: i64,
    // what a move of the rate curve changes the price by
    pub change: i64,
    pub rates: Rates,
    pub limits: Limits,
}

// A held record: the contracts of a line that an account begins with, and the price that they were taken at.
#[derive(Clone, Copy, PartialEq, Eq, Debug, Default)]
pub struct Held {
    pub line: i64,
    pub net: i64,
    pub price: i64,
}

// Whether low ≤ n ≤ high. For callers that have the two ends as numbers.
pub fn between(n: i64, low: i64, high: i64) -> bool
    ensures { result ≡ within low high n }
{
    (low..=high).contains(&n)
}

impl Rates {
    // by a chain, which has no two ends: each rate is told from the next
    fn fit(&self) -> bool
        ensures { result ≡ rates_fit self.now }
    {
        1 <= self.r1 && self.r1 <= self.r2 && self.r2 <= self.r3 && self.r3 <= 10_000
    }
}

impl Limits {
    // by a chain, as rates
    fn fit(&self) -> bool
        ensures { result ≡ limits_fit self.now }
    {
        0 <= self.a && self.a <= self.b && self.b <= 10_000
    }
}

impl Line {
    // Whether every number of a future but its month lies in its field, and rates and limits do not fall.
    pub fn fits_a_future(&self) -> bool
        ensures { result ≡ future_fits self.now }
    {
        self.prices_fit() && self.rates.fit() && self.limits.fit()
    }

    fn prices_fit(&self) -> bool
        ensures { result ≡ prices_fit self.now }
    {
        between(self.price, 0, MOST_PRICE)
            && between(self.spot, 0, MOST_PRICE)
            && between(self.change, 0, 1_000_000)
    }
}
