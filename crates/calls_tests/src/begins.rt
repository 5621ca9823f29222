// What refuses an account at its begin, with the number and the place. Values are written out, so that what is expected does not come from the code.
use crate::markets::{FUTURE, held};
use crate::tables::{Told, refused};
use banks::strip::Strip;
use calls::accounts::Account;
use calls::opening::begin;
use deck::given::Given;
use std::alloc::{AllocError, Global};
use std::test::Fail;
use terms::cards::{Basket, Family, Held, Line, Month, Rates};
use terms::fault::Fault;

// What varies in one card of each kind.
#[derive(Clone, Copy)]
struct Cards {
    // of the family, a number as a card holds it
    rule: i64,
    // that the basket, the month and the line name
    family: i64,
    basket: i64,
    month: i64,
    // of the line's rates, of which the second is 1,500
    first_rate: i64,
    futures: usize,
}

const GOOD: Cards = Cards {
    rule: 1,
    family: 0,
    basket: 0,
    month: 0,
    first_rate: 1_000,
    futures: 1,
};

// The margin with which an account begins, or the number and the place of its refusal; want of memory fails the test.
fn told(begun: Result<Account<Strip>, Fault>) -> Result<Told, Fail> {
    match begun {
        Ok(account) => Ok(Ok(account.margin().amount)),
        Err(Fault::Refused(why)) => Ok(Err(refused(why))),
        Err(Fault::Memory) => Err(AllocError.into()),
    }
}

fn line(month: i64, r1: i64) -> Line {
    Line {
        month,
        rates: Rates {
            r1,
            r2: 1_500,
            r3: 2_000,
        },
        ..FUTURE
    }
}

// Over a strip of these lines. What varies from test to test comes apart.
fn begun(
    heap: Global,
    lines: &[Line],
    cards: Cards,
    held: &[Held],
    collateral: i64,
) -> Result<Told, Fail> {
    let family = Family {
        rule: cards.rule,
        window: 0,
    };
    let basket = Basket {
        family: cards.family,
        rule: 1,
    };
    let month = Month {
        basket: cards.basket,
    };
    let given = Given {
        families: &[family],
        baskets: &[basket],
        months: &[month],
        lines: &[line(cards.month, cards.first_rate)],
        futures: cards.futures,
    };
    let bank = Strip::new(1, lines)?;
    told(begin(heap, bank, &given, held, collateral))
}

// Each of these has a fault more than the one before.
const NO_FUTURE: Cards = Cards { futures: 0, ..GOOD };

const BAD_LINE: Cards = Cards {
    month: 1,
    ..NO_FUTURE
};

const BAD_MONTH: Cards = Cards {
    basket: 1,
    ..BAD_LINE
};

const BAD_BASKET: Cards = Cards {
    family: 1,
    ..BAD_MONTH
};

const BAD_FAMILY: Cards = Cards {
    rule: 2,
    ..BAD_BASKET
};

const FALLING_RATES: Cards = Cards {
    first_rate: 1_501,
    ..GOOD
};

const TWO_FUTURES: Cards = Cards { futures: 2, ..GOOD };

const CARDS: [(Cards, Told); 8] = [
    (BAD_FAMILY, Err((4, 0))),
    (BAD_BASKET, Err((4, 1))),
    (BAD_MONTH, Err((4, 2))),
    (BAD_LINE, Err((4, 3))),
    (FALLING_RATES, Err((4, 3))),
    (NO_FUTURE, Err((6, 0))),
    (TWO_FUTURES, Err((6, 0))),
    (GOOD, Err((11, 0))),
];

// The collateral is refused after all of them.
#[test]
fn bad_cards(rt: HostRuntime) -> Result<(), Fail> {
    for (cards, told) in CARDS {
        assert_eq!(rt; begun(rt.alloc(), &[FUTURE], cards, &[], -1)?, told);
    }
    Ok(())
}

#[test]
fn a_bank_of_other_lines(rt: HostRuntime) -> Result<(), Fail> {
    let two = [FUTURE, FUTURE];
    assert_eq!(rt; begun(rt.alloc(), &two, GOOD, &[], -1)?, Err((6, 0)));
    Ok(())
}

// The line, the net and the price of a held record, where the collateral is refused after it.
const RECORDS: [(i64, i64, i64, Told); 10] = [
    (1, 1, 100_000, Err((4, 4))),
    (-1, 1, 100_000, Err((4, 4))),
    (0, 10_001, 100_000, Err((4, 4))),
    (0, -10_001, 100_000, Err((4, 4))),
    (0, 1, -1, Err((4, 4))),
    (0, 1, 10_000_001, Err((4, 4))),
    (0, 10_000, 100_000, Err((11, 0))),
    (0, -10_000, 100_000, Err((11, 0))),
    (0, 1, 0, Err((11, 0))),
    (0, 1, 10_000_000, Err((11, 0))),
];

#[test]
fn bad_held_records(rt: HostRuntime) -> Result<(), Fail> {
    for (line, net, price, told) in RECORDS {
        let record = Held { line, net, price };
        assert_eq!(rt; begun(rt.alloc(), &[FUTURE], GOOD, &[record], -1)?, told);
    }
    let twice = [held(0), held(0)];
    assert_eq!(rt;
        begun(rt.alloc(), &[FUTURE], GOOD, &twice, -1)?,
        Err((4, 5))
    );
    Ok(())
}

// The collateral of an account that begins with 10 contracts.
const AMOUNTS: [(i64, Told); 6] = [
    (-1, Err((11, 0))),
    (0, Err((24, 0))),
    (99_999, Err((24, 0))),
    (100_000, Ok(100_000)),
    (100_000_000_000_000, Ok(100_000)),
    (100_000_000_000_001, Err((11, 0))),
];

#[test]
fn bad_collateral(rt: HostRuntime) -> Result<(), Fail> {
    for (amount, told) in AMOUNTS {
        let records = [held(10)];
        assert_eq!(rt; begun(rt.alloc(), &[FUTURE], GOOD, &records, amount)?, told);
    }
    assert_eq!(rt; begun(rt.alloc(), &[FUTURE], GOOD, &[], 0)?, Ok(0));
    Ok(())
}
