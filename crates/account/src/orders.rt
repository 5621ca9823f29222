// An order that an account has accepted, and what may happen to it.
use margin::book::Open;

// How far an order has come.
#[derive(Clone, Copy, PartialEq, Eq, Debug)]
pub enum OrderState {
    // Nothing of it is filled yet.
    Untouched,
    // Something is filled and something is left.
    PartlyFilled,
    // Filled whole, or cancelled; a gone order leaves the list of open orders.
    Gone,
}

// An accepted order: the number it was given, what is left of it, and how far it has come.
#[derive(Clone, Copy, PartialEq, Eq, Debug)]
pub struct Order {
    pub number: u64,
    pub rest: Open,
    pub state: OrderState,
}

// What may happen to an order.
#[derive(Clone, Copy, PartialEq, Eq, Debug)]
pub enum Event {
    // So many contracts of it are filled.
    Filled(i64),
    Cancelled,
}
