// What happens to an order, and to the list of open orders.
ghost use Rattle.std.specs.Prelude.{◌≡◌, suc, ◌<◌, ◌≤◌, ◌++◌, length, get_or, take, drop, vec_capacity, slice_index_or, unsigned_abs};
ghost use Rattle.margin.specs.Book.{names};
ghost use Rattle.account.specs.Orders.{SmallEvent, signed, left_after, fill_state, state_after, order_after, kept as kept_of};
ghost use Rattle.calls.specs.Accounts.{PlaceOf, none_open};

use account::orders::{Event, Order, OrderState};

// So many contracts with the sign of an order.
pub(crate) fn with_sign_of(left: i64, contracts: i64) -> i64
    requires { unsigned_abs contracts ≤ 10000 }
    ensures value { result ≡ signed left contracts }
    ensures sized { unsigned_abs result ≤ 10000 }
{
    if 0 <= left { contracts } else { -contracts }
}

// The state of an order that was filled, by what is left of it.
#[tactic(auto, unfolding(account::specs::Orders::fill_state))]
fn of_filled(left: u64) -> OrderState
    ensures { result ≡ fill_state left }
{
    if left == 0 {
        OrderState::Gone
    } else {
        OrderState::PartlyFilled
    }
}

// The state after an event that leaves so much.
#[tactic(auto, unfolding(account::specs::Orders::state_after))]
fn state_after(state: OrderState, event: Event, left: u64) -> OrderState
    ensures { result ≡ state_after state event left }
{
    match event {
        Event::Cancelled => OrderState::Gone,
        Event::Filled(_) if state == OrderState::Gone => OrderState::Gone,
        Event::Filled(_) => of_filled(left),
    }
}

// What an event leaves of so many contracts. Orders and events are public, and anyone may make large ones, so that their sizes
// are asked for here, and by the two that meet an event below.
fn leaves(event: Event, left: i64) -> i64
    requires small { unsigned_abs left ≤ 10000 }
    requires event { SmallEvent event }
    ensures { result ≡ left_after event left }
{
    match event {
        Event::Filled(contracts) => left - with_sign_of(left, contracts),
        Event::Cancelled => 0,
    }
}

// An order meets an event.
fn meet(order: &mut Order, event: Event)
    requires small { unsigned_abs order.old.rest.left ≤ 10000 }
    requires event { SmallEvent event }
    ensures { order.new ≡ order_after event order.old }
{
    order.rest.left = leaves(event, order.rest.left);
    order.state = state_after(order.state, event, order.rest.left.unsigned_abs());
}

// The order at a place leaves the list if it is gone.
fn settle(orders: &mut Vec<Order>, place: usize)
    requires { place < length orders.old.items }
    ensures items { orders.new.items ≡ take place orders.old.items ++ kept_of (slice_index_or orders.old.items place none_open) (drop (suc place) orders.old.items) }
    ensures capacity { vec_capacity orders.new ≡ vec_capacity orders.old }
{
    if orders[place].state == OrderState::Gone {
        orders.remove(place);
    }
}

// The order at a place meets an event, and leaves the list if it is gone then. Answers the size that is left of it.
pub(crate) fn meet_at(orders: &mut Vec<Order>, place: usize, event: Event) -> u64
    requires place { place < length orders.old.items }
    requires small { unsigned_abs (get_or orders.old.items place none_open).rest.left ≤ 10000 }
    requires event { SmallEvent event }
    ensures items { orders.new.items ≡ take place orders.old.items ++ kept_of (order_after event (slice_index_or orders.old.items place none_open)) (drop (suc place) orders.old.items) }
    ensures capacity { vec_capacity orders.new ≡ vec_capacity orders.old }
    ensures left { result ≡ unsigned_abs (order_after event (slice_index_or orders.old.items place none_open)).rest.left }
{
    meet(&mut orders[place], event);
    let left = orders[place].rest.left.unsigned_abs();
    settle(orders, place);
    left
}

fn has_number(own: u64, number: i64) -> bool
    ensures { result ≡ names number own }
{
    u64::try_from(number) == Ok(own)
}

// The place of the open order that has a number, if there is one.
pub(crate) fn place_of(orders: &[Order], number: i64) -> Option<usize>
    ensures { PlaceOf number orders.now result }
{
    orders
        .iter()
        .position(|order| has_number(order.number, number))
}
