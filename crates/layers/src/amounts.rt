// The worst of each family, its loss, and the margin.
ghost use Rattle.std.specs.Prelude.{◌≡◌, ℕ, ◌+◌, ◌^◌, ◌≤◌, pos, slice_index, slice_index_or, unsigned_abs};
ghost use Rattle.margin.specs.Layers.{loss_of as loss_of_result, family_result, family_worst, grains as loss_in_grains, margin_of, costliest as costliest_of};
ghost use Rattle.layers.specs.Families.{each_loss};
ghost use Rattle.layers.specs.Rows.{Holds};
ghost use Rattle.layers.specs.Scenes.{in_scene, cards_of, cells_of, worsts_of};

use crate::fitted::Fitted;
use crate::pick::least_between;
use crate::rows::BasketRows;
use margin::choice::MOST_FAMILIES;
use order::{FamilyLoss, least};
use std::array;
use terms::amounts::GRAINS;
use terms::half::MOST_POINTS;

// A scene with the worst result of every family's row that there may be, each with its first point.
#[derive(Clone, Copy, Drop)]
pub struct Worsts<'a> {
    pub fitted: Fitted<'a>,
    pub worsts: [(i128, usize); MOST_FAMILIES],
    ghost held: { worsts ≡ worsts_of fitted.scene },
    ghost sized: { (f : ℕ) → unsigned_abs (slice_index_or worsts f (pos 0, 0)).0 ≤ 2 ^ 78 },
}

// A scene with what every family that there may be loses, in grains.
#[derive(Clone, Copy, Drop)]
pub struct Losses<'a> {
    pub fitted: Fitted<'a>,
    pub losses: [u128; MOST_FAMILIES],
    ghost held: { losses ≡ in_scene each_loss fitted.scene },
    ghost sized: { (f : ℕ) → slice_index losses f ≤ 2 ^ 78 },
}

// Minus a result, or 0 if that is greater.
pub fn loss_of(res: i128) -> u128
    ensures value { result ≡ loss_of_result res }
    ensures size { result ≤ unsigned_abs res }
{
    if res < 0 { res.unsigned_abs() } else { 0 }
}

impl<'a> BasketRows<'a> {
    fn family_row(&self, f: usize) -> [i128; MOST_POINTS]
        ensures { Holds (family_result self.now.fitted.scene.last (cards_of self.now.fitted.scene) (cells_of self.now.fitted.scene) f) (2 ^ 78) 17 (self.now.fitted.scene.last + 1) result }
    {
        array::from_fn(|p| {
            if p <= self.fitted.scene.last {
                self.family_result(f, p)
            } else {
                0
            }
        })
    }

    // The worst of a family's row, with its first point.
    pub fn family_worst(&self, f: usize) -> (i128, usize)
        ensures value { result ≡ family_worst self.now.fitted.scene.last (cards_of self.now.fitted.scene) (cells_of self.now.fitted.scene) f }
        ensures size { unsigned_abs result.0 ≤ 2 ^ 78 }
    {
        let row = self.family_row(f);
        least_between(&row, 0, 0, self.fitted.scene.last)
    }

    // The worst of every family's row that there may be.
    pub fn worsts(&self) -> Worsts<'a>
        ensures { result.fitted ≡ self.now.fitted }
    {
        Worsts {
            fitted: self.fitted,
            worsts: array::from_fn(|f| self.family_worst(f)),
        }
    }
}

impl<'a> Worsts<'a> {
    // What every family that there may be loses.
    pub fn losses(&self) -> Losses<'a>
        ensures { result.fitted ≡ self.now.fitted }
    {
        Losses {
            fitted: self.fitted,
            losses: self.worsts.map(|(worst, _)| loss_of(worst)),
        }
    }
}

impl<'a> Losses<'a> {
    // The sum of the families' losses, in grains.
    pub fn grains(&self) -> u128
        ensures value { result ≡ loss_in_grains self.now.fitted.scene.last (cards_of self.now.fitted.scene) (cells_of self.now.fitted.scene) }
        ensures size { result ≤ 2 ^ 79 }
    {
        self.losses[..self.fitted.scene.families.len()].iter().sum()
    }

    // The margin in kopecks, rounded up once.
    pub fn margin(&self) -> u64
        ensures { result ≡ margin_of self.now.fitted.scene.last (cards_of self.now.fitted.scene) (cells_of self.now.fitted.scene) }
    {
        self.grains().div_ceil(u128::from(GRAINS)) as u64
    }

    // The family with the greatest loss, the lowest among equals.
    pub fn costliest(&self) -> usize
        ensures { result ≡ costliest_of self.now.fitted.scene.last (cards_of self.now.fitted.scene) (cells_of self.now.fitted.scene) }
    {
        let listed: [FamilyLoss; MOST_FAMILIES] = array::from_fn(|family| FamilyLoss {
            family,
            loss: self.losses[family],
        });
        least(&listed[..self.fitted.scene.families.len()]).map_or(0, |(_, place)| place)
    }
}
