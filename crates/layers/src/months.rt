// A month at a point. Each step has a size of its own, which the sums above need.
ghost use Rattle.std.specs.Prelude.{◌≡◌, ◌+◌, ◌^◌, ◌<◌, ◌≤◌, pos, unsigned_abs};
ghost use Rattle.margin.specs.Layers.{volatility_result, rate_result, twist_result, curve_result, month_result};
ghost use Rattle.margin.specs.Sums.{least3};
ghost use Rattle.layers.specs.Scenes.{cells_of};

use crate::fitted::Fitted;
use crate::pick::{least_of_three, least_with_0};
use crate::scene::{RATE, TWIST};

impl<'a> Fitted<'a> {
    // The least of the volatility columns, with the lowest column that has it.
    pub fn volatility_result(&self, m: usize, p: usize) -> (i128, usize)
        ensures value { result ≡ volatility_result (cells_of self.now.scene) m p }
        ensures size { unsigned_abs result.0 ≤ 2 ^ 70 }
    {
        least_of_three(self.cell(m, p, 0), self.cell(m, p, 1), self.cell(m, p, 2))
    }

    // The least of 0 and a column and the next.
    fn least_of_pair(&self, m: usize, p: usize, first: usize) -> (i128, usize)
        requires { first < 7 }
        ensures value { result ≡ least3 (pos 0) (cells_of self.now.scene m p first) (cells_of self.now.scene m p (first + 1)) }
        ensures size { unsigned_abs result.0 ≤ 2 ^ 70 }
        ensures place { result.1 ≤ 2 }
    {
        least_with_0(self.cell(m, p, first), self.cell(m, p, first + 1))
    }

    // The least of 0 and the two rate columns; its place is 0 where neither is taken. The place stays a number, as the definition
    // answers it; `column_at` turns it into an Option.
    #[tactic(auto, unfolding(margin::specs::Layers::rate_result))]
    pub fn rate_result(&self, m: usize, p: usize) -> (i128, usize)
        ensures value { result ≡ rate_result (cells_of self.now.scene) m p }
        ensures size { unsigned_abs result.0 ≤ 2 ^ 70 }
        ensures place { result.1 ≤ 2 }
    {
        self.least_of_pair(m, p, RATE)
    }

    // The least of 0 and the two twist columns. Two names over one function, since callers name them.
    #[tactic(auto, unfolding(margin::specs::Layers::twist_result))]
    pub fn twist_result(&self, m: usize, p: usize) -> (i128, usize)
        ensures value { result ≡ twist_result (cells_of self.now.scene) m p }
        ensures size { unsigned_abs result.0 ≤ 2 ^ 70 }
        ensures place { result.1 ≤ 2 }
    {
        self.least_of_pair(m, p, TWIST)
    }

    pub fn curve_result(&self, m: usize, p: usize) -> i128
        ensures value { result ≡ curve_result (cells_of self.now.scene) m p }
        ensures size { unsigned_abs result ≤ 2 ^ 71 }
    {
        self.rate_result(m, p).0 + self.twist_result(m, p).0
    }

    pub fn month_result(&self, m: usize, p: usize) -> i128
        ensures value { result ≡ month_result (cells_of self.now.scene) m p }
        ensures size { unsigned_abs result ≤ 2 ^ 72 }
    {
        self.volatility_result(m, p).0 + self.curve_result(m, p)
    }
}
