// The calls that an account takes, with their numbers as the caller gave them; the account judges them.

#[derive(Clone, Copy, PartialEq, Eq, Debug)]
pub enum Call {
    // A new order: contracts of a line, those to buy positive and those to sell negative, and the limit price in kopecks.
    Place {
        line: i64,
        quantity: i64,
        limit: i64,
    },
    // The order of a number ends.
    Cancel {
        number: i64,
    },
    // Contracts of an order are filled at a price in kopecks.
    Fill {
        number: i64,
        quantity: i64,
        price: i64,
    },
    // An amount in kopecks is added to the collateral, or taken off it.
    Deposit {
        amount: i64,
    },
    Withdraw {
        amount: i64,
    },
    // What must be blocked now, and the worst that it is blocked for.
    Margin,
}
