// The markets that the tests trade on. Values are written out, so that what is expected does not come from the code.
use crate::tables::{Step, Told, follow};
use banks::strip::Strip;
use calls::accounts::Account;
use calls::opening::begin;
use deck::given::Given;
use std::alloc::Global;
use std::process::Abort;
use std::test::Fail;
use terms::cards::{Basket, Family, Held, Limits, Line, Month, Rates};
use terms::fault::Fault;

pub const NETTED: Family = Family { rule: 1, window: 0 };

// A future at 100,000 kopecks, which a point moves by 10,000; what exceeds 10 and 20 contracts is charged.
pub const FUTURE: Line = Line {
    month: 0,
    price: 100_000,
    spot: 100_000,
    change: 0,
    rates: Rates {
        r1: 1_000,
        r2: 1_500,
        r3: 2_000,
    },
    limits: Limits { a: 10, b: 20 },
};

// The cards of lines in one month of a netted basket, the first a future.
pub fn one_month<'a>(lines: &'a [Line]) -> Given<'a> {
    Given {
        families: &[NETTED],
        baskets: &[Basket { family: 0, rule: 1 }],
        months: &[Month { basket: 0 }],
        lines,
        futures: 1,
    }
}

// An account on that future alone, over a grid of half 1.
pub fn one_future(heap: Global, held: &[Held], collateral: i64) -> Result<Account<Strip>, Fault> {
    let given = one_month(&[FUTURE]);
    let bank = Strip::new(1, given.lines)?;
    begin(heap, bank, &given, held, collateral)
}

// Contracts of the first line, taken at its price.
pub fn held(net: i64) -> Held {
    Held {
        line: 0,
        net,
        price: 100_000,
    }
}

// An account that begins with so many contracts of that future takes the steps. What varies from test to
// test comes apart.
pub fn trade(
    rt: &impl Abort,
    heap: Global,
    net: i64,
    collateral: i64,
    steps: &[(Step, Told)],
) -> Result<(), Fail> {
    let mut account = one_future(heap, &[held(net)], collateral)?;
    follow(rt, &mut account, steps);
    Ok(())
}
