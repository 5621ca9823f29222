// The world handed out, as far as it is chosen from the cells.
ghost use Rattle.std.specs.Prelude.{◌≡◌, ℕ, ◌<◌, ◌≤◌, Some, Option};
ghost use Rattle.margin.specs.Book.{named, basket as basket_card, month as month_card};
ghost use Rattle.margin.specs.HandedOut.{up_to, take_if_below0, column_at, kept_with, month_in, basket_in, family_point, basket_point, month_kept};
ghost use Rattle.layers.specs.Rows.{Lists};
ghost use Rattle.layers.specs.Scenes.{cards_of, cells_of, family_choice, basket_choice, month_choice};

use crate::fitted::Fitted;
use crate::naming::number;
use crate::rows::BasketRows;
use crate::scene::{RATE, Scene, TWIST};
use margin::choice::{Kept, MOST_BASKETS, MOST_FAMILIES, MOST_MONTHS};
use std::array;

// The column at a place of a rate or twist result: place 0 is no column. The place stays a number, as the definition answers it;
// this turns it into an Option.
fn column_at(first: usize, place: usize) -> Option<usize>
    requires { (first < 7) × (place ≤ 2) }
    ensures { result ≡ column_at first place }
{
    place.checked_sub(1).map(|past| first + past)
}

// What may be left out is taken only where its result is below 0.
#[tactic(auto, unfolding(margin::specs::HandedOut::take_if_below0))]
fn if_below_0<T: Drop>(res: i128, item: T) -> Option<T>
    ensures { result ≡ take_if_below0 res item }
{
    (res < 0).then_some(item)
}

// What is chosen for each number below a count, and none beyond.
fn chosen<T, F: Fn(usize) -> Option<T>, const N: usize>(count: usize, choice: F) -> [Option<T>; N]
    requires called { F.IsAlwaysCallable choice }
    requires room { count ≤ N }
    ensures { (row : ℕ → Option T) → ((i : ℕ) (r : Option T) → F.post choice i r → r ≡ row i) → Lists (up_to count row) result }
{
    array::from_fn(|i| if i < count { choice(i) } else { None })
}

impl<'a> Scene<'a> {
    // The number of the family that a basket names; this and the next are look-ups of two fields, which share the shape alone.
    fn family_of(&self, b: usize) -> usize
        ensures { result ≡ named (basket_card (cards_of self.now) b).family }
    {
        self.baskets
            .get(b)
            .map_or(0, |basket| number(basket.family))
    }

    // The number of the basket that a month names.
    fn basket_of(&self, m: usize) -> usize
        ensures { result ≡ named (month_card (cards_of self.now) m).basket }
    {
        self.months.get(m).map_or(0, |month| number(month.basket))
    }
}

impl<'a> Fitted<'a> {
    // The columns of a month that is kept at a volatility column.
    fn kept_with(&self, k: usize, m: usize, p: usize) -> Kept
        ensures { result ≡ kept_with (cells_of self.now.scene) k m p }
    {
        Kept {
            volatility: k,
            rate: column_at(RATE, self.rate_result(m, p).1),
            twist: column_at(TWIST, self.twist_result(m, p).1),
        }
    }

    // A month in a basket at a point.
    fn month_in(&self, b: usize, p: usize, m: usize) -> Option<Kept>
        ensures { result ≡ month_in self.now.scene.last (cards_of self.now.scene) (cells_of self.now.scene) b p m }
    {
        if self.scene.is_netted_basket(b) {
            Some(self.kept_with(self.netted_column(b, p).1, m, p))
        } else {
            if_below_0(
                self.month_result(m, p),
                self.kept_with(self.volatility_result(m, p).1, m, p),
            )
        }
    }
}

impl<'a> BasketRows<'a> {
    // A basket in a family at a point, which it asks for as `worst_within` does.
    fn basket_in(&self, f: usize, p: usize, b: usize) -> Option<usize>
        requires { p ≤ self.now.fitted.scene.last }
        ensures { result ≡ basket_in self.now.fitted.scene.last (cards_of self.now.fitted.scene) (cells_of self.now.fitted.scene) f p b }
    {
        let scene = &self.fitted.scene;
        if scene.is_netted_family(f) {
            Some(self.worst_within(scene.window(f), b, p).1)
        } else {
            if_below_0(self.result_at(b, p), p)
        }
    }

    // The point of a family, or none where it is left out.
    pub fn family_point(&self, f: usize) -> Option<usize>
        ensures value { result ≡ family_point self.now.fitted.scene.last (cards_of self.now.fitted.scene) (cells_of self.now.fitted.scene) f }
        ensures on_grid { (p : ℕ) → result ≡ Some p → p ≤ self.now.fitted.scene.last }
    {
        let (result, point) = self.family_worst(f);
        if_below_0(result, point)
    }

    // The point of a basket, or none where it is left out.
    pub fn basket_point(&self, b: usize) -> Option<usize>
        ensures { result ≡ basket_point self.now.fitted.scene.last (cards_of self.now.fitted.scene) (cells_of self.now.fitted.scene) b }
    {
        let f = self.fitted.scene.family_of(b);
        let p = self.family_point(f)?;
        self.basket_in(f, p, b)
    }

    // The columns of a month, or none where it is left out.
    pub fn month_kept(&self, m: usize) -> Option<Kept>
        ensures { result ≡ month_kept self.now.fitted.scene.last (cards_of self.now.fitted.scene) (cells_of self.now.fitted.scene) m }
    {
        let b = self.fitted.scene.basket_of(m);
        let p = self.basket_point(b)?;
        self.fitted.month_in(b, p, m)
    }

    // The families' points in the world handed out. Three names over one function, since callers name them.
    pub fn chosen_families(&self) -> [Option<usize>; MOST_FAMILIES]
        ensures { Lists (family_choice self.now.fitted.scene) result }
    {
        chosen(self.fitted.scene.families.len(), |f| self.family_point(f))
    }

    // The baskets' points.
    pub fn chosen_baskets(&self) -> [Option<usize>; MOST_BASKETS]
        ensures { Lists (basket_choice self.now.fitted.scene) result }
    {
        chosen(self.fitted.scene.baskets.len(), |b| self.basket_point(b))
    }

    // The months' columns.
    pub fn chosen_months(&self) -> [Option<Kept>; MOST_MONTHS]
        ensures { Lists (month_choice self.now.fitted.scene) result }
    {
        chosen(self.fitted.scene.months.len(), |m| self.month_kept(m))
    }
}
