// Calls in tables, with what each is told. Along every table a refused call must leave all that the account shows as it was,
// and no fill or cancel may raise the margin.
use account::orders::Order;
use banks::bank::Bank;
use calls::accounts::Account;
use calls::answer::Requirement;
use margin::book::Position;
use std::array;
use std::process::Abort;
use terms::refusal::Refusal;

// The number that a call answers, or the number and the place of its refusal. By number and place, since the tests check the
// numbers that are known outside the engine.
pub type Told = Result<u64, (u8, usize)>;

// A call, its numbers in their order; shorter to write in a table than `Call` with its named fields.
#[derive(Clone, Copy)]
pub enum Step {
    // a line, a quantity and a limit
    Place(i64, i64, i64),
    // an order's number, a quantity and a price
    Fill(i64, i64, i64),
    Cancel(i64),
    Deposit(i64),
    Withdraw(i64),
    // answers the amount
    Margin,
}

// The number and the place of a refusal.
pub fn refused(why: Refusal) -> (u8, usize) {
    (why.number(), why.place())
}

fn take<B: Bank>(account: &mut Account<B>, step: Step) -> Told {
    let told = match step {
        Step::Place(line, quantity, limit) => account.place(line, quantity, limit),
        Step::Fill(number, quantity, price) => account.fill(number, quantity, price),
        Step::Cancel(number) => account.cancel(number),
        Step::Deposit(amount) => account.deposit(amount),
        Step::Withdraw(amount) => account.withdraw(amount),
        Step::Margin => Ok(account.margin().amount),
    };
    told.map_err(refused)
}

// All that an account shows, of up to two lines. Arrays, since a copy of the lists would take the heap at every step.
#[derive(Clone, Copy, PartialEq, Debug)]
struct View {
    positions: [Option<Position>; 2],
    orders: [Option<Order>; 32],
    collateral: u64,
    margin: Requirement,
}

fn shown<B: Bank>(account: &Account<B>) -> View {
    View {
        positions: array::from_fn(|line| account.positions().get(line).copied()),
        orders: array::from_fn(|place| account.open_orders().get(place).copied()),
        collateral: account.collateral(),
        margin: account.margin(),
    }
}

// The account takes the steps in their order.
pub fn follow<B: Bank>(rt: &impl Abort, account: &mut Account<B>, steps: &[(Step, Told)]) {
    for (step, expected) in steps {
        let before = shown(account);
        let heard = take(account, *step);
        assert_eq!(rt; heard, *expected);
        let after = shown(account);
        if heard.is_err() {
            assert_eq!(rt; after, before);
        }
        if let Step::Fill(_, _, _) | Step::Cancel(_) = step {
            assert!(rt; after.margin.amount <= before.margin.amount);
        }
    }
}
