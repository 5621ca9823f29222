// The baskets' rows of results by points.
ghost use Rattle.std.specs.Prelude.{◌≡◌, ◌-◌, ◌^◌, ◌<◌, ◌≤◌, int_le, unsigned_abs};
ghost use Rattle.margin.specs.Layers.{basket_result};
ghost use Rattle.margin.specs.Sums.{least};
ghost use Rattle.layers.specs.Scenes.{HoldsBasket, HoldsBaskets, cards_of, cells_of};

use crate::fitted::Fitted;
use crate::pick::least_between;
use margin::choice::MOST_BASKETS;
use std::array;
use terms::half::MOST_POINTS;

// A scene with the results of each basket at 17 points.
#[derive(Clone, Copy, Drop)]
pub struct BasketRows<'a> {
    pub fitted: Fitted<'a>,
    pub rows: [[i128; MOST_POINTS]; MOST_BASKETS],
    ghost held: { HoldsBaskets fitted.scene rows },
}

impl<'a> Fitted<'a> {
    fn basket_row(&self, b: usize) -> [i128; MOST_POINTS]
        ensures { HoldsBasket self.now.scene b result }
    {
        array::from_fn(|p| self.basket_result(b, p))
    }

    // The least of a basket's results from one point to another, worked out where they are not at hand. Order and room are
    // asked for as by `least_between`.
    fn least_in(&self, b: usize, start: usize, end: usize) -> (i128, usize)
        requires ordered { start ≤ end }
        requires within { end < 17 }
        ensures value { result ≡ least int_le (basket_result (cards_of self.now.scene) (cells_of self.now.scene) b) start (end - start) }
        ensures size { unsigned_abs result.0 ≤ 2 ^ 76 }
    {
        least_between(&self.basket_row(b), 0, start, end)
    }

    // The baskets' results, with room for 17 points a basket.
    pub fn basket_rows(&self) -> BasketRows<'a>
        ensures { result.fitted ≡ self.now }
    {
        BasketRows {
            fitted: *self,
            // the clause is written out, since none is found for a closure that gives an array
            rows: array::from_fn(
                |b|
                    ensures { HoldsBasket self.entry.now.scene b result }
                { self.basket_row(b) },
            ),
        }
    }
}

impl<'a> BasketRows<'a> {
    // The least of a basket's results from one point to another, with its first point. It asks as `least_between`.
    pub(crate) fn least_in(&self, b: usize, start: usize, end: usize) -> (i128, usize)
        requires ordered { start ≤ end }
        requires within { end < 17 }
        ensures value { result ≡ least int_le (basket_result (cards_of self.now.fitted.scene) (cells_of self.now.fitted.scene) b) start (end - start) }
        ensures size { unsigned_abs result.0 ≤ 2 ^ 76 }
    {
        match self.rows.get(b) {
            Some(row) => least_between(row, 0, start, end),
            None => self.fitted.least_in(b, start, end),
        }
    }

    // A basket's result at a point, worked out where it is none of those that are kept. It asks as
    // `family_result`.
    pub(crate) fn result_at(&self, b: usize, p: usize) -> i128
        requires { p ≤ self.now.fitted.scene.last }
        ensures value { result ≡ basket_result (cards_of self.now.fitted.scene) (cells_of self.now.fitted.scene) b p }
        ensures size { unsigned_abs result ≤ 2 ^ 76 }
    {
        match self.rows.get(b) {
            Some(row) => row[p],
            None => self.fitted.basket_result(b, p),
        }
    }
}
