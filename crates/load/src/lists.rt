// The lists that a caller lends for a session file to be read into.
ghost use Rattle.std.specs.Prelude.{◌≡◌};
ghost use Rattle.load.specs.Days.{contents_of, lengths_of, zeros};

use kinds::Order;
use margin::choice::{MOST_BASKETS, MOST_FAMILIES, MOST_MONTHS};
use terms::amounts::MOST_LINES;
use terms::cards::{Basket, Family, Held, Line, Month};
use terms::half::{COLUMNS, MOST_POINTS};

// The length that is wanted of each list.
pub const FAMILIES: usize = MOST_FAMILIES;

pub const BASKETS: usize = MOST_BASKETS;

pub const MONTHS: usize = MOST_MONTHS;

pub const LINES: usize = MOST_LINES;

// A row for each column of each option, since one line at least is a future, and a price for each point.
pub const PRICES: usize = (LINES - 1) * COLUMNS * MOST_POINTS;

// A line is held once at most.
pub const HELD: usize = LINES;

pub const ORDERS: usize = 2_000;

// Lent at their full length, since nothing is allocated here; `Loaded` says how many records of each are used.
#[derive(Drop)]
pub struct Lists<'a> {
    pub families: &'a mut [Family],
    pub baskets: &'a mut [Basket],
    pub months: &'a mut [Month],
    // the futures first, then the options
    pub lines: &'a mut [Line],
    // those of the options, row after row. Flat, since the length of a row is known only when the half has been read.
    pub prices: &'a mut [i64],
    pub held: &'a mut [Held],
    pub orders: &'a mut [Order],
}

// How many records each list holds: beside `Lists`, so that what is checked or promised of the lengths alone can be said of them.
#[derive(Clone, Copy)]
pub struct Lengths {
    pub families: usize,
    pub baskets: usize,
    pub months: usize,
    pub lines: usize,
    pub prices: usize,
    pub held: usize,
    pub orders: usize,
}

impl Lists<'_> {
    pub(crate) fn lengths(&self) -> Lengths
        ensures { result ≡ lengths_of (contents_of self.now) }
    {
        Lengths {
            families: self.families.len(),
            baskets: self.baskets.len(),
            months: self.months.len(),
            lines: self.lines.len(),
            prices: self.prices.len(),
            held: self.held.len(),
            orders: self.orders.len(),
        }
    }

    // Sets every record of every list to zero.
    pub(crate) fn clear(&mut self)
        ensures { contents_of self.new ≡ zeros (contents_of self.old) }
    {
        self.families.fill(Family::default());
        self.baskets.fill(Basket::default());
        self.months.fill(Month::default());
        self.lines.fill(Line::default());
        self.prices.fill(0);
        self.held.fill(Held::default());
        self.orders.fill(Order::default());
    }
}
