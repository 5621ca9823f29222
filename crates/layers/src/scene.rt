// What the layers are worked out from: the cards, and the months' cells in a table.
use terms::cards::{Basket, Family, Line, Month};
use terms::half::VOLATILITIES;

// The first of a month's two rate columns, and of its two twist columns.
pub(crate) const RATE: usize = VOLATILITIES;

pub(crate) const TWIST: usize = RATE + 2;

// Its own fields, since callers name them. Futures and options are one list, since lines are numbered through both.
#[derive(Clone, Copy, Drop)]
pub struct Scene<'a> {
    pub families: &'a [Family],
    pub baskets: &'a [Basket],
    pub months: &'a [Month],
    pub lines: &'a [Line],
    pub futures: usize,
    // for each month, 17 points of seven cells
    pub cells: &'a [i128],
    // the grid's last point
    pub last: usize,
}
