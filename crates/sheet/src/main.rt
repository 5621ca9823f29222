// Prints the scenario sheet of two futures and an option, and of the same option in a contract of twice the size, and what must
// be blocked for a calendar spread of the futures. The futures come from their cards, the option from a table of prices, and the
// whole is one bank.
// Each of the two programs, this and `world_sheet`, shows whole what a caller writes: cards, bank, book, margin. What prints the
// rows stands in both too: in a library it would be public functions of which no contract could say what they print.
// Values are written out, as a caller has them.
#![tactic(auto)]

use banks::bank::Bank;
use banks::pair::Pair;
use banks::scale::Scale;
use banks::strip::Strip;
use banks::table::Table;
use cover::judged::margin_of;
use deck::deck::Deck;
use deck::given::Given;
use margin::book::{Open, Position};
use std::io;
use terms::cards::{Basket, Family, Limits, Line, Month, Rates};
use terms::fault::Fault;
use terms::refusal::Refusal;

const COLUMNS: [&str; 7] = [
    "volatility 0",
    "volatility 1",
    "volatility 2",
    "rates down",
    "rates up",
    "twist 5",
    "twist 6",
];

// The option's prices in kopecks: for each column, one for each of the three points.
const OPTION: [i64; 21] = [
    1200, 4800, 11500, 1500, 5200, 11900, 2100, 5900, 12600, -40, -60, -90, 40, 60, 90, -15, -20,
    -10, 15, 20, 10,
];

fn main(rt: HostRuntime) -> anyhow::Result<()> {
    run(&rt)
}

fn run(rt: &HostRuntime) -> anyhow::Result<()> {
    match book(&futures(), &OPTION) {
        Ok(bank) => {
            sheet(rt, &bank)?;
            margin(rt, &bank)?;
        }
        Err(why) => println!(rt; "{why}")?,
    }
    match too_large(&OPTION) {
        Ok(_) => rt.println("a table fifty times as large was made")?,
        Err(why) => println!(rt; "{why}")?,
    }
    Ok(())
}

// What must be blocked for a calendar spread of the two futures with an order to buy one more, over the whole bank.
fn margin<B: Bank>(rt: &HostRuntime, bank: &B) -> anyhow::Result<()> {
    let option = Line {
        month: 0,
        ..Line::default()
    };
    let [near, far] = futures();
    let given = Given {
        families: &[Family { rule: 1, window: 0 }],
        baskets: &[Basket { family: 0, rule: 1 }],
        months: &[Month { basket: 0 }, Month { basket: 0 }],
        lines: &[near, far, option, option],
        futures: 2,
    };
    match Deck::judged(rt.alloc(), &given, &[], bank.lines()) {
        Ok(deck) => blocked(rt, bank, &deck)?,
        Err(Fault::Refused(why)) => println!(rt; "{why}")?,
        Err(Fault::Memory) => rt.println("no memory for the cards")?,
    }
    Ok(())
}

fn blocked<B: Bank>(rt: &impl Print, bank: &B, deck: &Deck) -> io::Result<()> {
    let positions = [
        Position {
            net: 3,
            cost: 24_000_000_000,
        },
        Position {
            net: -2,
            cost: -16_240_000_000,
        },
    ];
    let orders = [Open {
        line: 0,
        left: 1,
        limit: 95_000,
    }];
    match margin_of(bank, deck, &positions, &orders) {
        None => rt.println("no account may have such a book"),
        Some(answer) => {
            let amount = answer.amount;
            let (worst, point) = answer.worsts[0];
            println!(rt;
                "blocked {amount} kopecks: family 0 comes to {worst} grains at point {point}"
            )
        }
    }
}

fn futures() -> [Line; 2] {
    let rates = Rates {
        r1: 1000,
        r2: 1500,
        r3: 2000,
    };
    let limits = Limits { a: 10, b: 20 };
    let near = Line {
        month: 0,
        price: 100_000,
        spot: 100_000,
        change: 500,
        rates,
        limits,
    };
    let far = Line {
        month: 1,
        price: 101_500,
        spot: 100_000,
        change: 700,
        rates,
        limits,
    };
    [near, far]
}

// The futures' strip beside the option's table, and beside both the option again at twice its size.
fn book<'a>(
    futures: &[Line],
    option: &'a [i64],
) -> Result<Pair<Pair<Strip, Table<'a>>, Scale<Table<'a>>>, Refusal> {
    let strip = Strip::new(1, futures)?;
    let table = Table::new(1, 1, option)?;
    let both = Pair::new(strip, table)?;
    Pair::new(both, Scale::new(table, 2)?)
}

// A scale whose reach would pass what a bank may have.
fn too_large(option: &[i64]) -> Result<Scale<Table<'_>>, Refusal> {
    Scale::new(Table::new(1, 1, option)?, 50)
}

fn sheet<B: Bank>(rt: &impl Print, bank: &B) -> io::Result<()> {
    let lines = bank.lines();
    let half = bank.half().size();
    let reach = bank.reach();
    println!(rt; "{lines} lines, half {half}, reach {reach} grains")?;
    // by number: a bank is asked by numbers, and there is no list of lines or points to go over
    for line in 0..lines {
        println!(rt; "line {line}")?;
        for (column, name) in COLUMNS.iter().enumerate() {
            row(rt, bank, line, column, name)?;
        }
    }
    Ok(())
}

// The prices of one line in one column, point by point, in grains.
fn row<B: Bank>(
    rt: &impl Print,
    bank: &B,
    line: usize,
    column: usize,
    name: &str,
) -> io::Result<()> {
    print!(rt; "  {name:<12}")?;
    for point in 0..bank.half().points() {
        let price = bank.price(line, point, column);
        print!(rt; " {price:>14}")?;
    }
    println!(rt; "")
}
