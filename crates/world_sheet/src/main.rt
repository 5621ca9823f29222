// Prints the scenario sheet of two futures and an option, and of the same option in a contract of twice the size; and what must
// be blocked for a calendar spread of the futures with open orders, and the world handed out with it. The futures come from
// their cards, the option from a table of prices, and the whole is one bank.
// Each of the two programs, this and `sheet`, shows whole what a caller writes: cards, bank, book, margin. What prints the
// rows stands in both too: in a library it would be public functions of which no contract could say what they print.
// Values are written out, as a caller has them.
#![tactic(auto)]

use banks::bank::Bank;
use banks::pair::Pair;
use banks::scale::Scale;
use banks::strip::Strip;
use banks::table::Table;
use cover::Blocked;
use cover::judged::margin_of;
use deck::deck::Deck;
use deck::given::Given;
use margin::book::{Open, Position};
use margin::choice::{Counted, Kept, World};
use std::io;
use terms::cards::{Basket, Family, Limits, Line, Month, Rates};
use terms::fault::Fault;
use terms::refusal::Refusal;

const COLUMNS: [&str; 7] = [
    "volatility 0",
    "volatility 1",
    "volatility 2",
    "rates down",
    "rates up",
    "twist 5",
    "twist 6",
];

// The option's prices in kopecks: for each column, one for each of the three points.
const OPTION: [i64; 21] = [
    1200, 4800, 11500, 1500, 5200, 11900, 2100, 5900, 12600, -40, -60, -90, 40, 60, 90, -15, -20,
    -10, 15, 20, 10,
];

fn main(rt: HostRuntime) -> anyhow::Result<()> {
    run(&rt)
}

fn run(rt: &HostRuntime) -> anyhow::Result<()> {
    match book(&futures(), &OPTION) {
        Ok(bank) => {
            sheet(rt, &bank)?;
            margin(rt, &bank)?;
        }
        Err(why) => println!(rt; "{why}")?,
    }
    match too_large(&OPTION) {
        Ok(_) => rt.println("a table fifty times as large was made")?,
        Err(why) => println!(rt; "{why}")?,
    }
    Ok(())
}

// What must be blocked for a calendar spread of the two futures with three open orders, over the whole bank.
fn margin<B: Bank>(rt: &HostRuntime, bank: &B) -> anyhow::Result<()> {
    let option = Line {
        month: 0,
        ..Line::default()
    };
    let [near, far] = futures();
    let given = Given {
        families: &[Family { rule: 1, window: 0 }],
        baskets: &[Basket { family: 0, rule: 1 }],
        months: &[Month { basket: 0 }, Month { basket: 0 }],
        lines: &[near, far, option, option],
        futures: 2,
    };
    match Deck::judged(rt.alloc(), &given, &[], bank.lines()) {
        Ok(deck) => blocked(rt, bank, &deck)?,
        Err(Fault::Refused(why)) => println!(rt; "{why}")?,
        Err(Fault::Memory) => rt.println("no memory for the cards")?,
    }
    Ok(())
}

fn blocked<B: Bank>(rt: &impl Print, bank: &B, deck: &Deck) -> io::Result<()> {
    let positions = [
        Position {
            net: 3,
            cost: 24_000_000_000,
        },
        Position {
            net: -2,
            cost: -16_240_000_000,
        },
    ];
    let orders = open_orders();
    match margin_of(bank, deck, &positions, &orders) {
        None => rt.println("no account may have such a book"),
        Some(answer) => {
            answers(rt, deck, &answer)?;
            world(rt, deck, orders.len(), &answer.world)
        }
    }
}

// A buy of one near future below its price, a sell of one above it, and a buy of two options at almost nothing.
fn open_orders() -> [Open; 3] {
    [
        Open {
            line: 0,
            left: 1,
            limit: 95_000,
        },
        Open {
            line: 0,
            left: -1,
            limit: 105_000,
        },
        Open {
            line: 2,
            left: 2,
            limit: 100,
        },
    ]
}

// The margin, what each family loses and where, and the family that loses most.
fn answers(rt: &impl Print, deck: &Deck, answer: &Blocked) -> io::Result<()> {
    let amount = answer.amount;
    println!(rt; "blocked: {amount} kopecks")?;
    let families = deck.families.len();
    let rows = answer.losses.iter().zip(&answer.worsts);
    for (f, (loss, (worst, point))) in rows.enumerate().take(families) {
        println!(rt;
            "  family {f} loses {loss} grains: it comes to {worst} at point {point}, its worst"
        )?;
    }
    let costliest = answer.costliest;
    println!(rt; "  family {costliest} loses most")
}

// A world, choice by choice, as far as there are cards and orders.
fn world(rt: &impl Print, deck: &Deck, orders: usize, chosen: &World) -> io::Result<()> {
    println!(rt; "the world handed out, which loses as much as any:")?;
    for (f, point) in chosen.families.iter().enumerate().take(deck.families.len()) {
        at_point(rt, "family", f, *point)?;
    }
    for (b, point) in chosen.baskets.iter().enumerate().take(deck.baskets.len()) {
        at_point(rt, "basket", b, *point)?;
    }
    for (m, kept) in chosen.months.iter().enumerate().take(deck.months.len()) {
        month(rt, m, *kept)?;
    }
    for (i, counted) in chosen.orders.iter().enumerate().take(orders) {
        order(rt, i, counted)?;
    }
    Ok(())
}

fn at_point(rt: &impl Print, what: &str, number: usize, point: Option<usize>) -> io::Result<()> {
    match point {
        Some(p) => println!(rt; "  {what} {number} at point {p}"),
        None => println!(rt; "  {what} {number} left out"),
    }
}

fn month(rt: &impl Print, m: usize, kept: Option<Kept>) -> io::Result<()> {
    match kept {
        None => println!(rt; "  month {m} left out"),
        Some(columns) => {
            let volatility = column(columns.volatility);
            let rate = column_or(columns.rate, "rates unmoved");
            let twist = column_or(columns.twist, "no twist");
            println!(rt; "  month {m} with {volatility}, {rate}, {twist}")
        }
    }
}

fn column(k: usize) -> &'static str {
    COLUMNS.get(k).copied().unwrap_or("no column")
}

fn column_or(k: Option<usize>, none: &'static str) -> &'static str {
    k.map_or(none, column)
}

// In which of its month's cells an order counts.
fn order(rt: &impl Print, i: usize, counted: &Counted) -> io::Result<()> {
    if !(counted.volatility || counted.rate || counted.twist) {
        return println!(rt; "  order {i} counts in no cell");
    }
    let volatility = word_if(counted.volatility, " volatility");
    let rate = word_if(counted.rate, " rates");
    let twist = word_if(counted.twist, " twist");
    println!(rt; "  order {i} counts in its month's cells:{volatility}{rate}{twist}")
}

fn word_if(said: bool, word: &'static str) -> &'static str {
    if said { word } else { "" }
}

fn futures() -> [Line; 2] {
    let rates = Rates {
        r1: 1000,
        r2: 1500,
        r3: 2000,
    };
    let limits = Limits { a: 10, b: 20 };
    let near = Line {
        month: 0,
        price: 100_000,
        spot: 100_000,
        change: 500,
        rates,
        limits,
    };
    let far = Line {
        month: 1,
        price: 101_500,
        spot: 100_000,
        change: 700,
        rates,
        limits,
    };
    [near, far]
}

// The futures' strip beside the option's table, and beside both the option again at twice its size.
fn book<'a>(
    futures: &[Line],
    option: &'a [i64],
) -> Result<Pair<Pair<Strip, Table<'a>>, Scale<Table<'a>>>, Refusal> {
    let strip = Strip::new(1, futures)?;
    let table = Table::new(1, 1, option)?;
    let both = Pair::new(strip, table)?;
    Pair::new(both, Scale::new(table, 2)?)
}

// A scale whose reach would pass what a bank may have.
fn too_large(option: &[i64]) -> Result<Scale<Table<'_>>, Refusal> {
    Scale::new(Table::new(1, 1, option)?, 50)
}

fn sheet<B: Bank>(rt: &impl Print, bank: &B) -> io::Result<()> {
    let lines = bank.lines();
    let half = bank.half().size();
    let reach = bank.reach();
    println!(rt; "{lines} lines, half {half}, reach {reach} grains")?;
    // by number: a bank is asked by numbers, and there is no list of lines or points to go over
    for line in 0..lines {
        println!(rt; "line {line}")?;
        for (column, name) in COLUMNS.iter().enumerate() {
            row(rt, bank, line, column, name)?;
        }
    }
    Ok(())
}

// The prices of one line in one column, point by point, in grains.
fn row<B: Bank>(
    rt: &impl Print,
    bank: &B,
    line: usize,
    column: usize,
    name: &str,
) -> io::Result<()> {
    print!(rt; "  {name:<12}")?;
    for point in 0..bank.half().points() {
        let price = bank.price(line, point, column);
        print!(rt; " {price:>14}")?;
    }
    println!(rt; "")
}
