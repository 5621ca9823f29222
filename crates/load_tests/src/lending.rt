// Lists to lend, and texts made from others.
use kinds::Order;
use load::lists::{BASKETS, FAMILIES, HELD, LINES, Lists, MONTHS, ORDERS, PRICES};
use load::loading::{Loaded, load};
use std::alloc::Global;
use std::test::Fail;
use terms::cards::{Basket, Family, Held, Line, Month};
use terms::refusal::Refusal;

// A text with one future.
pub const FUTURE: &str =
    "(grid (half 1))\n(family (rule 1) (window 0))\n(basket (family 0) (rule 1))\n(month (basket 0))\n(future (month 0) (price 100000) (spot 100000) (change 0) (rates 1000 1500 2000) (limits 10 20))\n(cash (amount 500000))\n";

// What is answered of a text that is read into lists of the right lengths.
pub fn answer(text: &[u8]) -> Result<Loaded, Refusal> {
    load(
        text,
        &mut Lists {
            families: &mut [Family::default(); FAMILIES],
            baskets: &mut [Basket::default(); BASKETS],
            months: &mut [Month::default(); MONTHS],
            lines: &mut [Line::default(); LINES],
            prices: &mut [0; PRICES],
            held: &mut [Held::default(); HELD],
            orders: &mut [Order::default(); ORDERS],
        },
    )
}

// Whether a text is accepted, or why not.
pub fn told(text: &[u8]) -> Result<(), Refusal> {
    answer(text).map(|_| ())
}

// The text with the first `old` in it replaced.
pub fn changed(heap: Global, text: &str, old: &str, new: &str) -> Result<String, Fail> {
    let (front, back) = text.split_once(old).ok_or("nothing to change")?;
    Ok(format!(in heap; "{front}{new}{back}")?)
}

// The text with more behind it.
pub fn joined(heap: Global, text: &str, more: &str) -> Result<String, Fail> {
    Ok(format!(in heap; "{text}{more}")?)
}
