// What a position and an open order come to in a cell.
ghost use Rattle.std.specs.Prelude.{◌≡◌, ◌^◌, ◌≤◌, pos, ◌-ℤ◌, ◌*ℤ◌, int_lt, neg_ℤ, unsigned_abs};
ghost use Rattle.std.specs.Int.{int_min, int_max};
ghost use Rattle.margin.specs.Cells.{position_result, order_result};

use crate::open_order::OpenOrder;
use crate::products::times;
use crate::quote::Quote;
use margin::book::Position;
use terms::amounts::GRAINS;
use terms::half::VOLATILITIES;

impl Quote {
    // A position's result at a price, or at a change of the price.
    pub(crate) fn position_result(self, position: Position) -> i64
        requires net { unsigned_abs position.net ≤ 10000 }
        requires cost { unsigned_abs position.cost ≤ 2 ^ 56 }
        ensures value { result ≡ position_result position self.price self.column }
        ensures size { unsigned_abs result ≤ 2 ^ 57 }
    {
        let held = times::<10_000, 2_000_000_000_000>(position.net, self.price);
        if self.column < VOLATILITIES {
            held - position.cost
        } else {
            held
        }
    }

    // How far a price lies above an order's limit, in grains.
    fn over_limit(self, order: OpenOrder) -> i64
        ensures value { result ≡ self.price -ℤ pos 80000 *ℤ order.open.limit }
        ensures size { unsigned_abs result ≤ 2800000000000 }
    {
        self.price - GRAINS as i64 * order.open.limit
    }

    // An order's result if all that is left of it were filled at its limit.
    fn order_result(self, order: OpenOrder) -> i64
        ensures value { result ≡ order_result order.open self.price self.column }
        ensures size { unsigned_abs result ≤ 28000000000000000 }
    {
        let left = order.open.left;
        if self.column < VOLATILITIES {
            times::<10_000, 2_800_000_000_000>(left, self.over_limit(order))
        } else {
            times::<10_000, 2_800_000_000_000>(left, self.price)
        }
    }

    // The same where it is a loss.
    pub(crate) fn order_loss(self, order: OpenOrder) -> i64
        ensures value { result ≡ int_min (pos 0) (order_result order.open self.price self.column) }
        ensures size { unsigned_abs result ≤ 28000000000000000 }
    {
        0i64.min(self.order_result(order))
    }

    // Whether it is one.
    pub(crate) fn order_loses(self, order: OpenOrder) -> bool
        ensures { result ≡ int_lt (order_result order.open self.price self.column) (pos 0) }
    {
        self.order_result(order) < 0
    }
}

impl OpenOrder {
    // The contracts that an order buys.
    pub(crate) fn buys(self) -> i64
        ensures value { result ≡ int_max (pos 0) self.open.left }
        ensures size { unsigned_abs result ≤ 10000 }
    {
        0i64.max(self.open.left)
    }

    // The contracts that it sells.
    pub(crate) fn sells(self) -> i64
        ensures value { result ≡ int_max (pos 0) (neg_ℤ self.open.left) }
        ensures size { unsigned_abs result ≤ 10000 }
    {
        0i64.max(-self.open.left)
    }
}
