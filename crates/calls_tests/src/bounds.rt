// What refuses calls, at both sides of each bound.
use crate::markets::{one_future, trade};
use crate::tables::{Step, Told, follow};
use margin::book::Position;
use std::test::Fail;

// Enough for any margin. Written out, so that it does not come from the code.
const RICH: i64 = 100_000_000_000_000;

const OWN_NUMBERS: [(Step, Told); 10] = [
    (Step::Place(-1, 0, -1), Err((8, 0))),
    (Step::Place(1, 0, -1), Err((8, 0))),
    (Step::Place(0, 0, -1), Err((9, 0))),
    (Step::Place(0, 10_001, -1), Err((9, 0))),
    (Step::Place(0, -10_001, -1), Err((9, 0))),
    (Step::Place(0, -9_223_372_036_854_775_808, 0), Err((9, 0))),
    (Step::Place(0, 1, -1), Err((10, 0))),
    (Step::Place(0, -1, 10_000_001), Err((10, 0))),
    (Step::Place(0, 1, 0), Ok(1)),
    (Step::Place(0, -10_000, 10_000_000), Ok(2)),
];

#[test]
fn orders_by_their_own_numbers(rt: HostRuntime) -> Result<(), Fail> {
    trade(&rt, rt.alloc(), 0, RICH, &OWN_NUMBERS)
}

// With 9,999 held, what the line may come to hold, and to be short of.
const LONG: [(Step, Told); 6] = [
    (Step::Place(0, 2, 100_000), Err((22, 0))),
    (Step::Place(0, 1, 100_000), Ok(1)),
    (Step::Place(0, 1, 100_000), Err((22, 0))),
    (Step::Place(0, -10_000, 100_000), Ok(2)),
    (Step::Place(0, -9_999, 100_000), Ok(3)),
    (Step::Place(0, -1, 100_000), Err((22, 0))),
];

// With 9,999 sold; then 20,000 contracts were accepted, and a cancel takes none of them off.
const SHORT: [(Step, Told); 11] = [
    (Step::Place(0, -2, 100_000), Err((22, 0))),
    (Step::Place(0, -1, 100_000), Ok(1)),
    (Step::Place(0, 10_000, 100_000), Ok(2)),
    (Step::Place(0, 10_000, 100_000), Err((22, 0))),
    (Step::Place(0, 9_999, 100_000), Ok(3)),
    (Step::Place(0, -1, 100_000), Err((22, 0))),
    (Step::Cancel(1), Ok(1)),
    (Step::Cancel(2), Ok(10_000)),
    (Step::Cancel(3), Ok(9_999)),
    (Step::Place(0, 1, 100_000), Err((23, 0))),
    (Step::Place(0, -1, 100_000), Err((23, 0))),
];

#[test]
fn orders_by_what_their_line_may_come_to(rt: HostRuntime) -> Result<(), Fail> {
    trade(&rt, rt.alloc(), 9_999, RICH, &LONG)?;
    trade(&rt, rt.alloc(), -9_999, RICH, &SHORT)
}

// With 32 open orders the next one is refused, whatever else it lacks but numbers in their range; a gone order leaves its place.
const FULL: [(Step, Told); 9] = [
    (Step::Place(0, 1, 90_000), Err((21, 0))),
    (Step::Place(0, 10_000, 90_000), Err((21, 0))),
    (Step::Place(0, 1, -1), Err((10, 0))),
    (Step::Cancel(7), Ok(1)),
    (Step::Place(0, 1, 90_000), Ok(33)),
    (Step::Place(0, 1, 90_000), Err((21, 0))),
    (Step::Fill(33, 1, 90_000), Ok(0)),
    (Step::Place(0, 1, 90_000), Ok(34)),
    (Step::Place(0, 1, 90_000), Err((21, 0))),
];

#[test]
fn the_thirty_third_order(rt: HostRuntime) -> Result<(), Fail> {
    let mut account = one_future(rt.alloc(), &[], RICH)?;
    // by number, from the first: the orders differ in nothing else
    for number in 1..33 {
        follow(
            &rt,
            &mut account,
            &[(Step::Place(0, 1, 90_000), Ok(number))],
        );
    }
    follow(&rt, &mut account, &FULL);
    Ok(())
}

const FILLS: [(Step, Told); 22] = [
    (Step::Place(0, 3, 90_000), Ok(1)),
    (Step::Place(0, -2, 110_000), Ok(2)),
    (Step::Fill(3, 0, -1), Err((9, 0))),
    (Step::Fill(1, -1, 90_000), Err((9, 0))),
    (Step::Fill(3, 10_001, -1), Err((9, 0))),
    (Step::Fill(3, 4, -1), Err((10, 0))),
    (Step::Fill(1, 1, 10_000_001), Err((10, 0))),
    (Step::Fill(3, 4, 90_001), Err((25, 0))),
    (Step::Fill(0, 1, 90_000), Err((25, 0))),
    (Step::Fill(-1, 1, 90_000), Err((25, 0))),
    (Step::Fill(1, 4, 90_001), Err((26, 0))),
    (Step::Fill(1, 10_000, 90_000), Err((26, 0))),
    (Step::Fill(1, 3, 90_001), Err((27, 0))),
    (Step::Fill(1, 1, 90_000), Ok(2)),
    (Step::Fill(1, 3, 90_000), Err((26, 0))),
    (Step::Fill(1, 2, 0), Ok(0)),
    (Step::Fill(1, 1, 0), Err((25, 0))),
    (Step::Fill(2, 3, 109_999), Err((26, 0))),
    (Step::Fill(2, 1, 109_999), Err((27, 0))),
    (Step::Fill(2, 1, 110_000), Ok(1)),
    (Step::Fill(2, 1, 10_000_000), Ok(0)),
    (Step::Fill(2, 1, 110_000), Err((25, 0))),
];

// Paid are 90,000 and twice nothing, received 110,000 and 10,000,000: the fills' prices, not the limits.
const FILLED: Position = Position {
    net: 1,
    cost: -801_600_000_000,
};

#[test]
fn fills_of_a_buy_and_of_a_sell(rt: HostRuntime) -> Result<(), Fail> {
    let mut account = one_future(rt.alloc(), &[], 1_000_000)?;
    follow(&rt, &mut account, &FILLS);
    assert_eq!(rt; account.positions(), &[FILLED][..]);
    Ok(())
}

const CANCELS: [(Step, Told); 13] = [
    (Step::Cancel(0), Err((25, 0))),
    (Step::Cancel(1), Err((25, 0))),
    (Step::Place(0, 5, 90_000), Ok(1)),
    (Step::Place(0, -4, 110_000), Ok(2)),
    (Step::Fill(1, 2, 90_000), Ok(3)),
    (Step::Fill(2, 1, 110_000), Ok(3)),
    (Step::Cancel(-1), Err((25, 0))),
    (Step::Cancel(0), Err((25, 0))),
    (Step::Cancel(3), Err((25, 0))),
    (Step::Cancel(2), Ok(3)),
    (Step::Cancel(2), Err((25, 0))),
    (Step::Cancel(1), Ok(3)),
    (Step::Cancel(1), Err((25, 0))),
];

// The last orders have a margin of one kopeck.
const AMOUNTS: [(Step, Told); 17] = [
    (Step::Deposit(-1), Err((11, 0))),
    (Step::Deposit(100_000_000_000_001), Err((11, 0))),
    (Step::Deposit(99_999_999_999_996), Err((28, 0))),
    (Step::Deposit(99_999_999_999_995), Ok(100_000_000_000_000)),
    (Step::Deposit(0), Ok(100_000_000_000_000)),
    (Step::Deposit(1), Err((28, 0))),
    (Step::Withdraw(-1), Err((11, 0))),
    (Step::Withdraw(100_000_000_000_001), Err((11, 0))),
    (Step::Withdraw(100_000_000_000_000), Ok(0)),
    (Step::Withdraw(0), Ok(0)),
    (Step::Withdraw(1), Err((24, 0))),
    (Step::Place(0, 1, 90_001), Err((24, 0))),
    (Step::Deposit(2), Ok(2)),
    (Step::Place(0, 1, 90_001), Ok(1)),
    (Step::Withdraw(2), Err((24, 0))),
    (Step::Withdraw(1), Ok(1)),
    (Step::Withdraw(1), Err((24, 0))),
];

#[test]
fn cancels_and_amounts(rt: HostRuntime) -> Result<(), Fail> {
    trade(&rt, rt.alloc(), 0, 1_000_000, &CANCELS)?;
    trade(&rt, rt.alloc(), 0, 5, &AMOUNTS)
}
