// Runs of calls: numbers, states and margins along the way.
use crate::markets::{FUTURE, one_future, one_month};
use crate::tables::{Step, Told, follow, refused};
use account::call::Call;
use account::orders::{Order, OrderState};
use banks::bank::Bank;
use banks::strip::Strip;
use calls::accounts::Account;
use calls::answer::Answer;
use calls::running::run;
use margin::book::Open;
use std::process::Abort;
use std::test::Fail;
use terms::refusal::Refusal;

// Both sides of a line, and refused calls among others.
const CALLS: [Call; 12] = [
    Call::Place {
        line: 0,
        quantity: 4,
        limit: 100_000,
    },
    Call::Place {
        line: 0,
        quantity: -3,
        limit: 105_000,
    },
    Call::Place {
        line: 1,
        quantity: 1,
        limit: 100_000,
    },
    Call::Margin,
    Call::Deposit { amount: 1 },
    Call::Withdraw { amount: 460_002 },
    Call::Withdraw { amount: 1 },
    Call::Fill {
        number: 1,
        quantity: 2,
        price: 99_000,
    },
    Call::Fill {
        number: 1,
        quantity: 3,
        price: 99_000,
    },
    Call::Cancel { number: 1 },
    Call::Fill {
        number: 2,
        quantity: 3,
        price: 106_000,
    },
    Call::Cancel { number: 2 },
];

// What each of them is told. Apart from the calls, which a run takes as one slice.
const OUTCOMES: [Told; 12] = [
    Ok(1),
    Ok(2),
    Err((8, 0)),
    Ok(40_000),
    Ok(500_001),
    Err((24, 0)),
    Ok(500_000),
    Ok(2),
    Err((26, 0)),
    Ok(2),
    Ok(0),
    Err((25, 0)),
];

// The number that a call answers, of a margin the amount.
fn heard(outcome: Result<Answer, Refusal>) -> Told {
    match outcome.map_err(refused)? {
        Answer::Numbered(number)
        | Answer::StillLeft(number)
        | Answer::Ended(number)
        | Answer::Collateral(number) => Ok(number),
        Answer::Required(requirement) => Ok(requirement.amount),
    }
}

// What a run was told is what the table says, and what an account is told that takes the calls one by one.
fn told_again<B: Bank>(
    rt: &impl Abort,
    account: &mut Account<B>,
    told: &[Result<Answer, Refusal>],
) {
    assert_eq!(rt; told.len(), OUTCOMES.len());
    for ((call, expected), answer) in CALLS.iter().zip(OUTCOMES.iter()).zip(told.iter()) {
        assert_eq!(rt; account.take(*call), *answer);
        assert_eq!(rt; heard(*answer), *expected);
    }
}

#[test]
fn calls_in_a_run(rt: HostRuntime) -> Result<(), Fail> {
    let given = one_month(&[FUTURE]);
    let bank = Strip::new(1, given.lines)?;
    let told = run(rt.alloc(), bank, &given, &[], 500_000, &CALLS)?;
    let mut account = one_future(rt.alloc(), &[], 500_000)?;
    told_again(&rt, &mut account, &told);
    Ok(())
}

const OPEN: [(Step, Told); 7] = [
    (Step::Place(0, 5, 100_000), Ok(1)),
    (Step::Place(0, 0, 100_000), Err((9, 0))),
    (Step::Place(0, -4, 110_000), Ok(2)),
    (Step::Place(0, 1, 90_000), Ok(3)),
    (Step::Fill(1, 2, 100_000), Ok(3)),
    (Step::Fill(2, 4, 110_000), Ok(0)),
    (Step::Place(0, -2, 110_000), Ok(4)),
];

// What stands open then: an order that is filled in part, and two that are untouched.
const THREE: [Order; 3] = [
    Order {
        number: 1,
        rest: Open {
            line: 0,
            left: 3,
            limit: 100_000,
        },
        state: OrderState::PartlyFilled,
    },
    Order {
        number: 3,
        rest: Open {
            line: 0,
            left: 1,
            limit: 90_000,
        },
        state: OrderState::Untouched,
    },
    Order {
        number: 4,
        rest: Open {
            line: 0,
            left: -2,
            limit: 110_000,
        },
        state: OrderState::Untouched,
    },
];

// Orders stand in the order of their numbers, which run on; a refused order takes no number, and a gone one leaves the list.
#[test]
fn numbers_and_states(rt: HostRuntime) -> Result<(), Fail> {
    let mut account = one_future(rt.alloc(), &[], 500_000)?;
    follow(&rt, &mut account, &OPEN);
    assert_eq!(rt; account.open_orders(), &THREE[..]);
    Ok(())
}
