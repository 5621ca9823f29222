// The kinds of form that fill a record of their own, each with its head, its inner forms and their fields.
// A `fill` goes from the place of an inner form to a field of its record: the shape is all that they share.
#![tactic(auto)]

ghost use Rattle.std.specs.Prelude.{◌≡◌, refl, pos};
ghost use Rattle.kinds.specs.Formats.{grid_format, family_format, basket_format, month_format, future_format, option_format, cash_format, held_format, order_format};
ghost use Rattle.kinds.specs.Filled.{rate_with, limit_with};

use forms::field::{Allowed, Field};
use forms::kind::Kind;
use terms::amounts::{MOST_CASH, MOST_CONTRACTS, MOST_PRICE};
use terms::cards::{Basket, Family, Held, Limits, Line, Month, Rates};
use terms::half::Half;

fn rate(so_far: Rates, index: usize, number: i64) -> Rates
    ensures { result ≡ rate_with so_far index number }
{
    match index {
        0 => Rates {
            r1: number,
            ..so_far
        },
        1 => Rates {
            r2: number,
            ..so_far
        },
        _ => Rates {
            r3: number,
            ..so_far
        },
    }
}

fn limit(so_far: Limits, index: usize, number: i64) -> Limits
    ensures { result ≡ limit_with so_far index number }
{
    match index {
        0 => Limits {
            a: number,
            ..so_far
        },
        _ => Limits {
            b: number,
            ..so_far
        },
    }
}

// The numbers that a price may be.
const PRICE: Allowed = Allowed::Between(0, MOST_PRICE);

// What both kinds of the grid's form ask for.
const HALF: &[Field] = &[Field {
    head: b"half",
    count: 1,
    allowed: Allowed::HalfSize,
}];

// The form of a grid, for callers that read its half as a number.
pub struct GridForm;

impl Kind for GridForm {
    type Record = i64;

    ghost head_of = { grid_format.head };

    ghost fields_of = { grid_format.fields };

    ghost lettered = { (refl, (refl, tt)) };

    ghost empty = { pos 0 };

    ghost filled = { λ _ _ _ n. n };

    const HEAD: &'static [u8] = b"grid";

    const FIELDS: &'static [Field] = HALF;

    fn first_head() -> &'static [u8] {
        Self::HEAD
    }

    fn inner_forms() -> &'static [Field] {
        Self::FIELDS
    }

    fn blank() -> i64 {
        0
    }

    fn fill(_so_far: i64, _inner: usize, _index: usize, number: i64) -> i64 {
        number
    }
}

// The same form, with its half as one of the four that there are.
pub struct HalfForm;

impl Kind for HalfForm {
    type Record = Half;

    ghost head_of = { grid_format.head };

    ghost fields_of = { grid_format.fields };

    ghost lettered = { (refl, (refl, tt)) };

    ghost empty = { grid_format.empty };

    ghost filled = { grid_format.fill };

    const HEAD: &'static [u8] = b"grid";

    const FIELDS: &'static [Field] = HALF;

    fn first_head() -> &'static [u8] {
        Self::HEAD
    }

    fn inner_forms() -> &'static [Field] {
        Self::FIELDS
    }

    fn blank() -> Half {
        Half::One
    }

    // The field takes halves alone, so that the number is one.
    fn fill(so_far: Half, _inner: usize, _index: usize, number: i64) -> Half {
        Half::of(number).unwrap_or(so_far)
    }
}

pub struct FamilyForm;

impl Kind for FamilyForm {
    type Record = Family;

    ghost head_of = { family_format.head };

    ghost fields_of = { family_format.fields };

    ghost lettered = { (refl, (refl, (refl, tt))) };

    ghost empty = { family_format.empty };

    ghost filled = { family_format.fill };

    const HEAD: &'static [u8] = b"family";

    const FIELDS: &'static [Field] = &[
        Field {
            head: b"rule",
            count: 1,
            allowed: Allowed::Between(0, 1),
        },
        Field {
            head: b"window",
            count: 1,
            allowed: Allowed::Between(0, 16),
        },
    ];

    fn first_head() -> &'static [u8] {
        Self::HEAD
    }

    fn inner_forms() -> &'static [Field] {
        Self::FIELDS
    }

    fn blank() -> Family {
        Family::default()
    }

    fn fill(so_far: Family, inner: usize, _index: usize, number: i64) -> Family {
        match inner {
            0 => Family {
                rule: number,
                ..so_far
            },
            _ => Family {
                window: number,
                ..so_far
            },
        }
    }
}

pub struct BasketForm;

impl Kind for BasketForm {
    type Record = Basket;

    ghost head_of = { basket_format.head };

    ghost fields_of = { basket_format.fields };

    ghost lettered = { (refl, (refl, (refl, tt))) };

    ghost empty = { basket_format.empty };

    ghost filled = { basket_format.fill };

    const HEAD: &'static [u8] = b"basket";

    const FIELDS: &'static [Field] = &[
        Field {
            head: b"family",
            count: 1,
            allowed: Allowed::Any,
        },
        Field {
            head: b"rule",
            count: 1,
            allowed: Allowed::Between(0, 1),
        },
    ];

    fn first_head() -> &'static [u8] {
        Self::HEAD
    }

    fn inner_forms() -> &'static [Field] {
        Self::FIELDS
    }

    fn blank() -> Basket {
        Basket::default()
    }

    fn fill(so_far: Basket, inner: usize, _index: usize, number: i64) -> Basket {
        match inner {
            0 => Basket {
                family: number,
                ..so_far
            },
            _ => Basket {
                rule: number,
                ..so_far
            },
        }
    }
}

pub struct MonthForm;

impl Kind for MonthForm {
    type Record = Month;

    ghost head_of = { month_format.head };

    ghost fields_of = { month_format.fields };

    ghost lettered = { (refl, (refl, tt)) };

    ghost empty = { month_format.empty };

    ghost filled = { month_format.fill };

    const HEAD: &'static [u8] = b"month";

    const FIELDS: &'static [Field] = &[Field {
        head: b"basket",
        count: 1,
        allowed: Allowed::Any,
    }];

    fn first_head() -> &'static [u8] {
        Self::HEAD
    }

    fn inner_forms() -> &'static [Field] {
        Self::FIELDS
    }

    fn blank() -> Month {
        Month::default()
    }

    fn fill(_so_far: Month, _inner: usize, _index: usize, number: i64) -> Month {
        Month { basket: number }
    }
}

pub struct FutureForm;

impl Kind for FutureForm {
    type Record = Line;

    ghost head_of = { future_format.head };

    ghost fields_of = { future_format.fields };

    ghost lettered = { (refl, (refl, (refl, (refl, (refl, (refl, (refl, tt))))))) };

    ghost empty = { future_format.empty };

    ghost filled = { future_format.fill };

    const HEAD: &'static [u8] = b"future";

    const FIELDS: &'static [Field] = &[
        Field {
            head: b"month",
            count: 1,
            allowed: Allowed::Any,
        },
        Field {
            head: b"price",
            count: 1,
            allowed: PRICE,
        },
        Field {
            head: b"spot",
            count: 1,
            allowed: PRICE,
        },
        Field {
            head: b"change",
            count: 1,
            allowed: Allowed::Between(0, 1_000_000),
        },
        Field {
            head: b"rates",
            count: 3,
            allowed: Allowed::Between(1, 10_000),
        },
        Field {
            head: b"limits",
            count: 2,
            allowed: Allowed::Between(0, MOST_CONTRACTS),
        },
    ];

    fn first_head() -> &'static [u8] {
        Self::HEAD
    }

    fn inner_forms() -> &'static [Field] {
        Self::FIELDS
    }

    fn blank() -> Line {
        Line::default()
    }

    fn fill(so_far: Line, inner: usize, index: usize, number: i64) -> Line {
        match inner {
            0 => Line {
                month: number,
                ..so_far
            },
            1 => Line {
                price: number,
                ..so_far
            },
            2 => Line {
                spot: number,
                ..so_far
            },
            3 => Line {
                change: number,
                ..so_far
            },
            4 => Line {
                rates: rate(so_far.rates, index, number),
                ..so_far
            },
            _ => Line {
                limits: limit(so_far.limits, index, number),
                ..so_far
            },
        }
    }
}

pub struct OptionForm;

impl Kind for OptionForm {
    type Record = Line;

    ghost head_of = { option_format.head };

    ghost fields_of = { option_format.fields };

    ghost lettered = { (refl, (refl, tt)) };

    ghost empty = { option_format.empty };

    ghost filled = { option_format.fill };

    const HEAD: &'static [u8] = b"option";

    const FIELDS: &'static [Field] = &[Field {
        head: b"month",
        count: 1,
        allowed: Allowed::Any,
    }];

    fn first_head() -> &'static [u8] {
        Self::HEAD
    }

    fn inner_forms() -> &'static [Field] {
        Self::FIELDS
    }

    fn blank() -> Line {
        Line::default()
    }

    fn fill(so_far: Line, _inner: usize, _index: usize, number: i64) -> Line {
        Line {
            month: number,
            ..so_far
        }
    }
}

pub struct CashForm;

impl Kind for CashForm {
    type Record = i64;

    ghost head_of = { cash_format.head };

    ghost fields_of = { cash_format.fields };

    ghost lettered = { (refl, (refl, tt)) };

    ghost empty = { cash_format.empty };

    ghost filled = { cash_format.fill };

    const HEAD: &'static [u8] = b"cash";

    const FIELDS: &'static [Field] = &[Field {
        head: b"amount",
        count: 1,
        allowed: Allowed::Between(0, MOST_CASH),
    }];

    fn first_head() -> &'static [u8] {
        Self::HEAD
    }

    fn inner_forms() -> &'static [Field] {
        Self::FIELDS
    }

    fn blank() -> i64 {
        0
    }

    fn fill(_so_far: i64, _inner: usize, _index: usize, number: i64) -> i64 {
        number
    }
}

pub struct HeldForm;

impl Kind for HeldForm {
    type Record = Held;

    ghost head_of = { held_format.head };

    ghost fields_of = { held_format.fields };

    ghost lettered = { (refl, (refl, (refl, (refl, tt)))) };

    ghost empty = { held_format.empty };

    ghost filled = { held_format.fill };

    const HEAD: &'static [u8] = b"held";

    const FIELDS: &'static [Field] = &[
        Field {
            head: b"line",
            count: 1,
            allowed: Allowed::Any,
        },
        Field {
            head: b"net",
            count: 1,
            allowed: Allowed::Between(-MOST_CONTRACTS, MOST_CONTRACTS),
        },
        Field {
            head: b"price",
            count: 1,
            allowed: PRICE,
        },
    ];

    fn first_head() -> &'static [u8] {
        Self::HEAD
    }

    fn inner_forms() -> &'static [Field] {
        Self::FIELDS
    }

    fn blank() -> Held {
        Held::default()
    }

    fn fill(so_far: Held, inner: usize, _index: usize, number: i64) -> Held {
        match inner {
            0 => Held {
                line: number,
                ..so_far
            },
            1 => Held {
                net: number,
                ..so_far
            },
            _ => Held {
                price: number,
                ..so_far
            },
        }
    }
}

// An order as a file gives it: its numbers are judged where it is placed. They are those of a held record, but of another
// meaning: none is judged here.
#[derive(Clone, Copy, PartialEq, Eq, Debug, Default)]
pub struct Order {
    pub line: i64,
    pub net: i64,
    pub price: i64,
}

pub struct OrderForm;

impl Kind for OrderForm {
    type Record = Order;

    ghost head_of = { order_format.head };

    ghost fields_of = { order_format.fields };

    ghost lettered = { (refl, (refl, (refl, (refl, tt)))) };

    ghost empty = { order_format.empty };

    ghost filled = { order_format.fill };

    const HEAD: &'static [u8] = b"order";

    const FIELDS: &'static [Field] = &[
        Field {
            head: b"line",
            count: 1,
            allowed: Allowed::Any,
        },
        Field {
            head: b"net",
            count: 1,
            allowed: Allowed::Any,
        },
        Field {
            head: b"price",
            count: 1,
            allowed: Allowed::Any,
        },
    ];

    fn first_head() -> &'static [u8] {
        Self::HEAD
    }

    fn inner_forms() -> &'static [Field] {
        Self::FIELDS
    }

    fn blank() -> Order {
        Order::default()
    }

    fn fill(so_far: Order, inner: usize, _index: usize, number: i64) -> Order {
        match inner {
            0 => Order {
                line: number,
                ..so_far
            },
            1 => Order {
                net: number,
                ..so_far
            },
            _ => Order {
                price: number,
                ..so_far
            },
        }
    }
}
