// What is left of the open orders, as a margin reads it.
ghost use Rattle.std.specs.Prelude.{◌≡◌, ◌≤◌, map, length, take, slice_index_or};
ghost use Rattle.calls.specs.Accounts.{rest_of, none_open};

use account::orders::Order;
use cells::book::MOST_ORDERS;
use margin::book::Open;
use std::array;

// What is left of the order at a place, and of none where there is none.
fn rest_at(orders: &[Order], place: usize) -> Open
    ensures { result ≡ (slice_index_or orders.now place none_open).rest }
{
    orders
        .get(place)
        .map(|order| order.rest)
        .unwrap_or_default()
}

// What is left of each order, from the first place on. An array of the most that there may be, since no call after begin
// allocates.
pub(crate) fn rests(orders: &[Order]) -> [Open; MOST_ORDERS]
    requires { length orders.now ≤ 32 }
    ensures long { length result ≡ 32 }
    ensures value { take (length orders.now) result ≡ map rest_of orders.now }
{
    array::from_fn(|place| rest_at(orders, place))
}
