// The calls of a day: its orders are placed, and then margin is asked for.
ghost use Rattle.std.specs.Prelude.{◌≡◌, IfOk};
ghost use Rattle.day.specs.Days.{placing, calls_of};

use account::call::Call;
use kinds::Order;
use std::alloc::{AllocError, Global};
use std::iter;

// The call that places an order of the file.
fn placed(order: &Order) -> Call
    ensures { result ≡ placing order.now }
{
    Call::Place {
        line: order.line,
        quantity: order.net,
        limit: order.price,
    }
}

pub fn calls_of(heap: Global, orders: &[Order]) -> Result<Vec<Call>, AllocError>
    ensures { IfOk result (λ v. v.items ≡ calls_of orders.now) }
{
    orders
        .iter()
        .map(placed)
        .chain(iter::once(Call::Margin))
        .collect(heap)
}
