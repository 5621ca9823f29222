// A basket at a point. Each step has a size of its own, which the sums above need.
ghost use Rattle.std.specs.Prelude.{◌≡◌, ℕ, ◌^◌, ◌≤◌, ℤ, unsigned_abs};
ghost use Rattle.margin.specs.Book.{netted_basket, over_months};
ghost use Rattle.margin.specs.Layers.{netted_column, netted_basket_result, half_basket_result, basket_result};
ghost use Rattle.layers.specs.Parts.{part_of};
ghost use Rattle.layers.specs.Scenes.{cards_of, cells_of};

use crate::fitted::Fitted;
pub use crate::naming::names;
use crate::part::Part;
use crate::pick::{least_of_three, lesser_of_0};
use crate::scene::Scene;

impl<'a> Scene<'a> {
    // Apart from the same question of a family, since callers name both, and the cards are of two types.
    pub fn is_netted_basket(&self, b: usize) -> bool
        ensures { result ≡ netted_basket (cards_of self.now) b }
    {
        self.baskets.get(b).is_some_and(|basket| basket.rule == 1)
    }
}

impl<'a> Fitted<'a> {
    // What a month gives to a sum, for callers that name a part; inside, a closure says it.
    fn part(&self, part: Part, m: usize, p: usize) -> i128
        ensures value { result ≡ part_of part (cells_of self.now.scene) m p }
        ensures size { unsigned_abs result ≤ 2 ^ 72 }
    {
        match part {
            Part::Column(k) => self.cell(m, p, k),
            Part::Curves => self.curve_result(m, p),
            Part::Losses => lesser_of_0(self.month_result(m, p)),
        }
    }

    // A sum over the months of a basket of what each gives. Added up in a loop: of a signed sum std's chains give no bound.
    fn sum_over<F: Fn(usize) -> i128>(&self, b: usize, gives: F) -> i128
        requires called { F.IsAlwaysCallable gives }
        requires small { (m : ℕ) (r : ℤ) → F.post gives m r → unsigned_abs r ≤ 2 ^ 72 }
        ensures value { (row : ℕ → ℤ) → ((m : ℕ) (r : ℤ) → F.post gives m r → r ≡ row m) → result ≡ over_months (cards_of self.now.scene) b row }
        ensures size { unsigned_abs result ≤ 2 ^ 75 }
    {
        let mut sum = 0;
        for (m, month) in self.scene.months.iter().enumerate() {
            if names(month.basket, b) {
                sum += gives(m);
            }
        }
        sum
    }

    // A sum over the months of a basket of one part.
    pub fn over_months(&self, b: usize, part: Part, p: usize) -> i128
        ensures value { result ≡ over_months (cards_of self.now.scene) b (λ m. part_of part (cells_of self.now.scene) m p) }
        ensures size { unsigned_abs result ≤ 2 ^ 75 }
    {
        self.sum_over(b, |m| self.part(part, m, p))
    }

    // The least of a netted basket's volatility columns, each added up over its months, with the lowest column that has it.
    pub fn netted_column(&self, b: usize, p: usize) -> (i128, usize)
        ensures value { result ≡ netted_column (cards_of self.now.scene) (cells_of self.now.scene) b p }
        ensures size { unsigned_abs result.0 ≤ 2 ^ 75 }
    {
        let first = self.sum_over(b, |m| self.cell(m, p, 0));
        let second = self.sum_over(b, |m| self.cell(m, p, 1));
        let third = self.sum_over(b, |m| self.cell(m, p, 2));
        least_of_three(first, second, third)
    }

    fn netted_basket_result(&self, b: usize, p: usize) -> i128
        ensures value { result ≡ netted_basket_result (cards_of self.now.scene) (cells_of self.now.scene) b p }
        ensures size { unsigned_abs result ≤ 2 ^ 76 }
    {
        self.netted_column(b, p).0 + self.sum_over(b, |m| self.curve_result(m, p))
    }

    #[tactic(auto, unfolding(margin::specs::Layers::half_basket_result))]
    fn half_basket_result(&self, b: usize, p: usize) -> i128
        ensures value { result ≡ half_basket_result (cards_of self.now.scene) (cells_of self.now.scene) b p }
        ensures size { unsigned_abs result ≤ 2 ^ 75 }
    {
        self.sum_over(b, |m| lesser_of_0(self.month_result(m, p)))
    }

    pub fn basket_result(&self, b: usize, p: usize) -> i128
        ensures value { result ≡ basket_result (cards_of self.now.scene) (cells_of self.now.scene) b p }
        ensures size { unsigned_abs result ≤ 2 ^ 76 }
    {
        if self.scene.is_netted_basket(b) {
            self.netted_basket_result(b, p)
        } else {
            self.half_basket_result(b, p)
        }
    }
}
