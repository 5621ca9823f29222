// Margins of small accounts, worked by hand. Values are written out, so that what is expected does not come from the code.
use crate::markets::{FUTURE, NETTED, one_month, trade};
use crate::tables::{Step, Told, follow};
use banks::bank::Bank;
use banks::pair::Pair;
use banks::scale::Scale;
use banks::strip::Strip;
use banks::table::Table;
use calls::answer::{FamilyWorst, Requirement};
use calls::opening::begin;
use deck::given::Given;
use std::alloc::Global;
use std::process::Abort;
use std::test::Fail;
use terms::cards::{Basket, Held, Line, Month};

// The contracts held, and the margin.
const HELD: [(i64, u64); 5] = [
    (0, 0),
    (10, 100_000),
    (12, 130_000),
    (-12, 130_000),
    (21, 270_000),
];

// With 12 held: a sell of what is held loses where the price rises, and so frees nothing until it is filled.
const SELL: [(Step, Told); 4] = [
    (Step::Place(0, -5, 100_000), Ok(1)),
    (Step::Margin, Ok(130_000)),
    (Step::Fill(1, 5, 100_000), Ok(0)),
    (Step::Margin, Ok(70_000)),
];

const BUYS: [(Step, Told); 4] = [
    (Step::Place(0, 1, 90_000), Ok(1)),
    (Step::Margin, Ok(0)),
    (Step::Place(0, 1, 90_001), Ok(2)),
    (Step::Margin, Ok(1)),
];

// With a collateral of 100,000. A buy that can lose nothing is still charged for, above 10 contracts.
const COVER: [(Step, Told); 4] = [
    (Step::Place(0, 10, 100_000), Ok(1)),
    (Step::Margin, Ok(100_000)),
    (Step::Place(0, 1, 100_000), Err((24, 0))),
    (Step::Place(0, 1, 0), Err((24, 0))),
];

#[test]
fn one_line(rt: HostRuntime) -> Result<(), Fail> {
    for (net, margin) in HELD {
        trade(&rt, rt.alloc(), net, 500_000, &[(Step::Margin, Ok(margin))])?;
    }
    trade(&rt, rt.alloc(), 12, 500_000, &SELL)?;
    trade(&rt, rt.alloc(), 0, 500_000, &BUYS)?;
    trade(&rt, rt.alloc(), 0, 100_000, &COVER)
}

// Two futures in two months of one basket.
const NEAR: Line = Line {
    change: 500,
    ..FUTURE
};

const FAR: Line = Line {
    month: 1,
    change: 700,
    ..FUTURE
};

const SPREAD: [Held; 2] = [
    Held {
        line: 0,
        net: 3,
        price: 100_000,
    },
    Held {
        line: 1,
        net: -2,
        price: 100_000,
    },
];

// What they require, with 3 held and 2 sold, and a buy of one at 95,000 kopecks. The rule is
// a number, as a card holds it.
fn calendar(rt: &impl Abort, heap: Global, rule: i64) -> Result<Requirement, Fail> {
    let given = Given {
        families: &[NETTED],
        baskets: &[Basket { family: 0, rule }],
        months: &[Month { basket: 0 }, Month { basket: 0 }],
        lines: &[NEAR, FAR],
        futures: 2,
    };
    let bank = Strip::new(1, given.lines)?;
    let mut account = begin(heap, bank, &given, &SPREAD, 500_000)?;
    follow(rt, &mut account, &[(Step::Place(0, 1, 95_000), Ok(1))]);
    Ok(account.margin())
}

const WORST: FamilyWorst = FamilyWorst {
    loss: 1_472_000_000,
    point: 0,
};

#[test]
fn a_calendar_spread(rt: HostRuntime) -> Result<(), Fail> {
    let netted = calendar(&rt, rt.alloc(), 1)?;
    assert_eq!(rt; netted.amount, 18_400);
    assert_eq!(rt; netted.families, [Some(WORST), None]);
    assert_eq!(rt; netted.costliest, 0);
    assert_eq!(rt; netted.world.families, [Some(0), None]);
    let half = calendar(&rt, rt.alloc(), 0)?;
    assert_eq!(rt; half.amount, 37_000);
    Ok(())
}

// A future sold at 100,000 kopecks, and an option bought at 3,000.
const HEDGED: [Held; 2] = [
    Held {
        line: 1,
        net: 1,
        price: 3_000,
    },
    Held {
        line: 0,
        net: -1,
        price: 100_000,
    },
];

// An account on both of them over a bank of two lines takes the steps.
fn hedged<B: Bank + Drop>(
    rt: &impl Abort,
    heap: Global,
    bank: B,
    steps: &[(Step, Told)],
) -> Result<(), Fail> {
    let given = one_month(&[FUTURE, FUTURE]);
    let mut account = begin(heap, bank, &given, &HEDGED, 500_000)?;
    follow(rt, &mut account, steps);
    Ok(())
}

// An option that is worth 1,000, 3,000 and 9,000 kopecks at the three points, whatever the volatility.
const OPTION: [i64; 21] = [
    1_000, 3_000, 9_000, 1_000, 3_000, 9_000, 1_000, 3_000, 9_000, 0, 0, 0, 0, 0, 0, 0, 0, 0, 0, 0,
    0,
];

// A scale doubles the prices of the bank, and neither limits nor costs.
const DOUBLED: [(Step, Told); 7] = [
    (Step::Margin, Ok(105_000)),
    (Step::Place(2, -1, 3_000), Err((8, 0))),
    (Step::Place(1, -1, 3_000), Ok(1)),
    (Step::Margin, Ok(120_000)),
    (Step::Fill(1, 1, 2_999), Err((27, 0))),
    (Step::Fill(1, 1, 3_500), Ok(0)),
    (Step::Margin, Ok(119_500)),
];

#[test]
fn over_a_pile(rt: HostRuntime) -> Result<(), Fail> {
    let pair = Pair::new(Strip::new(1, &[FUTURE])?, Table::new(1, 1, &OPTION)?)?;
    hedged(&rt, rt.alloc(), Scale::new(pair, 2)?, &DOUBLED)
}
