// What lists hold, how long they must be, and how many forms of a kind there may be. The lengths stand as numbers, so that
// these tests fall where a constant moves.
use crate::lending::{FUTURE, told};
use kinds::Order;
use load::lists::Lists;
use load::loading::{Loaded, load};
use std::test::Fail;
use terms::cards::{Basket, Family, Held, Limits, Line, Month, Rates};
use terms::half::Half;
use terms::refusal::Refusal;

const TEXT: &[u8] =
    b"(grid (half 2))\n(family (rule 1) (window 3))\n(basket (family 0) (rule 1))\n(month (basket 0))\n(future (month 0) (price 1) (spot 2) (change 3) (rates 4 5 6) (limits 7 8))\n(cash (amount 9))\n(held (line 0) (net -3) (price 10))\n(order (line -7) (net 2) (price 11))\n(order (line 0) (net 1) (price 12))\n";

// A line of which every number is the same.
fn line(n: i64) -> Line {
    Line {
        month: n,
        price: n,
        spot: n,
        change: n,
        rates: Rates {
            r1: n,
            r2: n,
            r3: n,
        },
        limits: Limits { a: n, b: n },
    }
}

// Records of each kind: the shape is all that they share.
fn family(n: i64) -> Family {
    Family { rule: n, window: n }
}

fn basket(n: i64) -> Basket {
    Basket { family: n, rule: n }
}

fn month(n: i64) -> Month {
    Month { basket: n }
}

fn held(n: i64) -> Held {
    Held {
        line: n,
        net: n,
        price: n,
    }
}

fn order(n: i64) -> Order {
    Order {
        line: n,
        net: n,
        price: n,
    }
}

#[test]
fn a_day_and_zeros_behind_it(rt: HostRuntime) {
    let mut families = [family(9); 2];
    let mut baskets = [basket(9); 4];
    let mut months = [month(9); 8];
    let mut lines = [line(9); 16];
    let mut prices = [9; 1_785];
    let mut records = [held(9); 16];
    let mut orders = [order(9); 2_000];
    let answer = load(
        TEXT,
        &mut Lists {
            families: &mut families,
            baskets: &mut baskets,
            months: &mut months,
            lines: &mut lines,
            prices: &mut prices,
            held: &mut records,
            orders: &mut orders,
        },
    );
    assert_eq!(rt;
        answer,
        Ok(Loaded {
            half: Half::Two,
            cash: 9,
            families: 1,
            baskets: 1,
            months: 1,
            futures: 1,
            options: 0,
            prices: 0,
            held: 1,
            orders: 2,
        })
    );
    assert_eq!(rt; families, [Family { rule: 1, window: 3 }, family(0)]);
    assert_eq!(rt;
        baskets,
        [
            Basket { family: 0, rule: 1 },
            basket(0),
            basket(0),
            basket(0),
        ]
    );
    assert_eq!(rt; months, [month(0); 8]);
    assert_eq!(rt;
        lines[0],
        Line {
            month: 0,
            price: 1,
            spot: 2,
            change: 3,
            rates: Rates {
                r1: 4,
                r2: 5,
                r3: 6,
            },
            limits: Limits { a: 7, b: 8 },
        }
    );
    assert_eq!(rt; lines[1], line(0));
    assert_eq!(rt; prices, [0; 1_785]);
    assert_eq!(rt;
        records[0],
        Held {
            line: 0,
            net: -3,
            price: 10,
        }
    );
    assert_eq!(rt; records[1], held(0));
    assert_eq!(rt;
        orders[0],
        Order {
            line: -7,
            net: 2,
            price: 11,
        }
    );
    assert_eq!(rt;
        orders[1],
        Order {
            line: 0,
            net: 1,
            price: 12,
        }
    );
    assert_eq!(rt; orders[2], order(0));
}

// The rows of an option fill the first prices, row after row.
#[test]
fn prices_of_an_option(rt: HostRuntime) {
    let text =
        b"(grid (half 1))\n(family (rule 1) (window 0))\n(basket (family 0) (rule 1))\n(month (basket 0))\n(future (month 0) (price 1) (spot 2) (change 3) (rates 4 5 6) (limits 7 8))\n(option (month 0))\n(row (line 1) (column 0) (prices 10 11 12))\n(row (line 1) (column 1) (prices 13 14 15))\n(row (line 1) (column 2) (prices 16 17 18))\n(row (line 1) (column 3) (prices -1 0 1))\n(row (line 1) (column 4) (prices -2 0 2))\n(row (line 1) (column 5) (prices -3 0 3))\n(row (line 1) (column 6) (prices -4 0 4))\n(cash (amount 0))\n";
    let mut lines = [line(9); 16];
    let mut prices = [9; 1_785];
    let answer = load(
        text,
        &mut Lists {
            families: &mut [family(9); 2],
            baskets: &mut [basket(9); 4],
            months: &mut [month(9); 8],
            lines: &mut lines,
            prices: &mut prices,
            held: &mut [held(9); 16],
            orders: &mut [order(9); 2_000],
        },
    );
    assert_eq!(rt;
        answer,
        Ok(Loaded {
            half: Half::One,
            cash: 0,
            families: 1,
            baskets: 1,
            months: 1,
            futures: 1,
            options: 1,
            prices: 21,
            held: 0,
            orders: 0,
        })
    );
    assert_eq!(rt; lines[1], line(0));
    assert_eq!(rt;
        [prices[0], prices[1], prices[3], prices[8]],
        [10, 11, 13, 18]
    );
    assert_eq!(rt;
        [prices[9], prices[14], prices[18], prices[20]],
        [-1, 2, -4, 4]
    );
    assert_eq!(rt; [prices[21], prices[1_784]], [0, 0]);
}

// A price list one short, and a text that is too long: the list decides, and all lists are cleared.
#[test]
fn zeros_where_refused(rt: HostRuntime) {
    let mut families = [family(9); 2];
    let mut baskets = [basket(9); 4];
    let mut months = [month(9); 8];
    let mut lines = [line(9); 16];
    let mut prices = [9; 1_784];
    let mut records = [held(9); 16];
    let mut orders = [order(9); 2_000];
    let answer = load(
        &[b'x'; 65_537],
        &mut Lists {
            families: &mut families,
            baskets: &mut baskets,
            months: &mut months,
            lines: &mut lines,
            prices: &mut prices,
            held: &mut records,
            orders: &mut orders,
        },
    );
    assert_eq!(rt; answer, Err(Refusal::WrongLength(1_785)));
    assert_eq!(rt; families, [family(0); 2]);
    assert_eq!(rt; baskets, [basket(0); 4]);
    assert_eq!(rt; months, [month(0); 8]);
    assert_eq!(rt; lines, [line(0); 16]);
    assert_eq!(rt; prices, [0; 1_784]);
    assert_eq!(rt; records, [held(0); 16]);
    assert_eq!(rt; orders, [order(0); 2_000]);
}

// Lists of families and of held records of another length: the first list decides, and comes before the text.
#[test]
fn lists_come_before_the_text(rt: HostRuntime) {
    let answer = load(
        &[b'x'; 65_537],
        &mut Lists {
            families: &mut [Family::default(); 3],
            baskets: &mut [Basket::default(); 4],
            months: &mut [Month::default(); 8],
            lines: &mut [Line::default(); 16],
            prices: &mut [0; 1_785],
            held: &mut [Held::default(); 1],
            orders: &mut [Order::default(); 2_000],
        },
    );
    assert_eq!(rt; answer, Err(Refusal::WrongLength(2)));
}

#[test]
fn length_of_the_text(rt: HostRuntime) {
    assert_eq!(rt; told(&[b'x'; 65_537]), Err(Refusal::WrongLength(65_536)));
    assert_eq!(rt; told(&[b'x'; 65_536]), Err(Refusal::Malformed(0)));
}

// As many orders as fill a text: 1,866 of them, and the text has 65,536 bytes.
#[test]
fn a_text_of_the_greatest_length(rt: HostRuntime) -> Result<(), Fail> {
    let mut text = String::from_str(rt.alloc(), FUTURE)?;
    // the same line so many times: there is no list of them
    for _ in 0..1_865 {
        text.push_str("(order (line 0) (net 1) (price 1))\n")?;
    }
    text.push_str("(order (line 0) (net 12345678901234) (price 1))\n")?;
    assert_eq!(rt; text.len(), 65_536);
    assert_eq!(rt; told(text.as_bytes()), Ok(()));
    text.push_str("(")?;
    assert_eq!(rt; told(text.as_bytes()), Err(Refusal::WrongLength(65_536)));
    Ok(())
}

// One form of a kind more than there may be, behind a text with none of them.
#[test]
fn one_too_many(rt: HostRuntime) -> Result<(), Fail> {
    let cases: [(&str, &str, usize); 5] = [
        ("", "(grid (half 1))\n", 1),
        (
            "(grid (half 1))\n(family (rule 1) (window 0))\n",
            "(basket (family 0) (rule 1))\n",
            4,
        ),
        (
            "(grid (half 1))\n(family (rule 1) (window 0))\n(basket (family 0) (rule 1))\n",
            "(month (basket 0))\n",
            8,
        ),
        (
            "(grid (half 1))\n(family (rule 1) (window 0))\n(basket (family 0) (rule 1))\n(month (basket 0))\n",
            "(future (month 0) (price 1) (spot 1) (change 0) (rates 1 1 1) (limits 0 0))\n",
            16,
        ),
        (
            "(grid (half 1))\n(family (rule 1) (window 0))\n(basket (family 0) (rule 1))\n(month (basket 0))\n(future (month 0) (price 1) (spot 1) (change 0) (rates 1 1 1) (limits 0 0))\n(cash (amount 1))\n",
            "(held (line 0) (net 1) (price 1))\n",
            16,
        ),
    ];
    for (before, form, most) in cases {
        let mut text = String::from_str(rt.alloc(), before)?;
        // the same line so many times
        for _ in 0..most {
            text.push_str(form)?;
        }
        let place = text.len();
        text.push_str(form)?;
        assert_eq!(rt; told(text.as_bytes()), Err(Refusal::WrongForm(place)));
    }
    Ok(())
}
