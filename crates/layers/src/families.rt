// A family at a point, and the worst of its row. Each step has a size of its own, which the sums above need.
ghost use Rattle.std.specs.Prelude.{◌≡◌, ◌^◌, ◌≤◌, unsigned_abs};
ghost use Rattle.margin.specs.Book.{netted_family, window_of};
ghost use Rattle.margin.specs.Layers.{window_start, window_end, worst_within, family_result};
ghost use Rattle.layers.specs.Scenes.{cards_of, cells_of, basket_part};

use crate::naming::names;
pub use crate::naming::number;
use crate::pick::lesser_of_0;
use crate::rows::BasketRows;
use crate::scene::Scene;

// The first point of the grid that lies within w points of p.
fn first_within(w: usize, p: usize) -> usize
    ensures { result ≡ window_start w p }
{
    p.saturating_sub(w)
}

// The last one. No grid has more than 17 points, and no sum wraps.
fn last_within(last: usize, w: usize, p: usize) -> usize
    requires grid { last ≤ 16 }
    requires point { p ≤ last }
    ensures { result ≡ window_end last w p }
{
    (p + w.min(16)).min(last)
}

impl<'a> Scene<'a> {
    // Apart from the same question of a basket, since callers name both, and the cards are of two types.
    pub fn is_netted_family(&self, f: usize) -> bool
        ensures { result ≡ netted_family (cards_of self.now) f }
    {
        self.families.get(f).is_some_and(|family| family.rule == 1)
    }

    // How many points a basket of the family may lie from the family's point. With the look-ups of other fields it shares the shape
    // alone.
    pub fn window(&self, f: usize) -> usize
        ensures { result ≡ window_of (cards_of self.now) f }
    {
        self.families
            .get(f)
            .map_or(0, |family| number(family.window))
    }
}

impl<'a> BasketRows<'a> {
    // The worst of a basket within w points of p, with its first point. The point is asked to lie on the grid: beyond it, a proof
    // that results off the grid are 0 would be needed, and a branch for it.
    pub fn worst_within(&self, w: usize, b: usize, p: usize) -> (i128, usize)
        requires { p ≤ self.now.fitted.scene.last }
        ensures value { result ≡ worst_within self.now.fitted.scene.last (cards_of self.now.fitted.scene) (cells_of self.now.fitted.scene) w b p }
        ensures size { unsigned_abs result.0 ≤ 2 ^ 76 }
    {
        self.least_in(
            b,
            first_within(w, p),
            last_within(self.fitted.scene.last, w, p),
        )
    }

    // What a basket gives to its family at a point.
    fn basket_part(&self, f: usize, p: usize, b: usize) -> i128
        requires { p ≤ self.now.fitted.scene.last }
        ensures value { result ≡ basket_part self.now.fitted.scene f p b }
        ensures size { unsigned_abs result ≤ 2 ^ 76 }
    {
        let scene = &self.fitted.scene;
        if scene.is_netted_family(f) {
            self.worst_within(scene.window(f), b, p).0
        } else {
            lesser_of_0(self.result_at(b, p))
        }
    }

    // A family at a point of the grid, which is asked for as above. Added up in a loop: of a signed sum std's chains give no
    // bound.
    pub fn family_result(&self, f: usize, p: usize) -> i128
        requires { p ≤ self.now.fitted.scene.last }
        ensures value { result ≡ family_result self.now.fitted.scene.last (cards_of self.now.fitted.scene) (cells_of self.now.fitted.scene) f p }
        ensures size { unsigned_abs result ≤ 2 ^ 78 }
    {
        let mut sum = 0;
        for (b, basket) in self.fitted.scene.baskets.iter().enumerate() {
            if names(basket.family, f) {
                sum += self.basket_part(f, p, b);
            }
        }
        sum
    }
}
