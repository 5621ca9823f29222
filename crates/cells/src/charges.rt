// What a future is charged for the contracts that it may come to on one side.
ghost use Rattle.std.specs.Prelude.{◌≡◌, ◌≤◌, true, false, pos, ◌+ℤ◌, ◌-ℤ◌, ◌*ℤ◌, unsigned_abs};
ghost use Rattle.std.specs.Int.{int_max};
ghost use Rattle.margin.specs.Cells.{above as above_limit, charge as charge_for};
ghost use Rattle.terms.specs.Cards.{future_fits};

use crate::products::times;
use terms::cards::Line;

// How many contracts a line may come to on one side.
#[derive(Clone, Copy)]
pub(crate) struct Reach {
    contracts: i64,
    ghost few: { unsigned_abs contracts ≤ 330000 },
}

impl Reach {
    // What is held on that side, and every open order of it.
    pub(crate) fn of(held: i64, ordered: i64) -> Reach
        requires held { unsigned_abs held ≤ 10000 }
        requires ordered { unsigned_abs ordered ≤ 320000 }
        ensures { result.contracts ≡ int_max (pos 0) (held +ℤ ordered) }
    {
        Reach {
            contracts: 0i64.max(held + ordered),
        }
    }

    // The contracts above a limit.
    fn above(self, limit: i64) -> i64
        requires { unsigned_abs limit ≤ 10000 }
        ensures value { result ≡ above_limit limit self.contracts }
        ensures size { unsigned_abs result ≤ 340000 }
    {
        0i64.max(self.contracts - limit)
    }
}

// The card of a future, whose numbers lie in their fields.
#[derive(Clone, Copy)]
pub(crate) struct Future<'a> {
    pub card: &'a Line,
    ghost fits: { future_fits card.now ≡ true },
}

impl<'a> Future<'a> {
    // How far the second rate lies above the first, and the third above the second.
    fn rises(&self) -> (i64, i64)
        ensures second { result.0 ≡ self.now.card.now.rates.r2 -ℤ self.now.card.now.rates.r1 }
        ensures third { result.1 ≡ self.now.card.now.rates.r3 -ℤ self.now.card.now.rates.r2 }
        ensures second_size { unsigned_abs result.0 ≤ 10000 }
        ensures third_size { unsigned_abs result.1 ≤ 10000 }
    {
        let rates = self.card.rates;
        (rates.r2 - rates.r1, rates.r3 - rates.r2)
    }

    // What each step of the rates adds for the contracts above its limit.
    fn steps(&self, reach: Reach) -> i64
        ensures value { result ≡ (self.now.card.now.rates.r2 -ℤ self.now.card.now.rates.r1) *ℤ above_limit self.now.card.now.limits.a reach.contracts +ℤ (self.now.card.now.rates.r3 -ℤ self.now.card.now.rates.r2) *ℤ above_limit self.now.card.now.limits.b reach.contracts }
        ensures size { unsigned_abs result ≤ 6800000000 }
    {
        let (second, third) = self.rises();
        let limits = self.card.limits;
        let second = times::<10_000, 340_000>(second, reach.above(limits.a));
        let third = times::<10_000, 340_000>(third, reach.above(limits.b));
        second + third
    }

    // What a future is charged: its steps, in ten-thousandths of the spot price, in grains.
    pub(crate) fn charge(&self, reach: Reach) -> i64
        ensures value { result ≡ charge_for self.now.card.now reach.contracts }
        ensures size { unsigned_abs result ≤ 544000000000000000 }
    {
        times::<80_000_000, 6_800_000_000>(8 * self.card.spot, self.steps(reach))
    }

    // The charge where it is due.
    pub(crate) fn charge_if(&self, due: bool, reach: Reach) -> i64
        ensures value { result ≡ elim due [ true ↦ charge_for self.now.card.now reach.contracts | false ↦ pos 0 ] }
        ensures size { unsigned_abs result ≤ 544000000000000000 }
    {
        if due { self.charge(reach) } else { 0 }
    }
}
