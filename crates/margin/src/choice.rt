// A world as plain values: its choices, in lists.

// The most families, baskets, months and open orders that an account may have.
pub const MOST_FAMILIES: usize = 2;

pub const MOST_BASKETS: usize = 4;

pub const MOST_MONTHS: usize = 8;

pub const MOST_ORDERS: usize = 32;

// The columns of a month that is kept: one volatility column, and at most one rate column and one twist column.
#[derive(Clone, Copy, PartialEq, Eq, Debug, Default)]
pub struct Kept {
    pub volatility: usize,
    pub rate: Option<usize>,
    pub twist: Option<usize>,
}

// In which of its month's cells an open order is counted.
#[derive(Clone, Copy, PartialEq, Eq, Debug, Default)]
pub struct Counted {
    pub volatility: bool,
    pub rate: bool,
    pub twist: bool,
}

// What may come about in one session, choice by choice. A family or basket stands at a point and a month keeps columns, or
// None where it is left out; the lists have room for as many cards and open orders as an account may have, each in its order.
// Fixed lists: a margin is worked out without the heap.
#[derive(Clone, Copy, PartialEq, Eq, Debug)]
pub struct World {
    pub families: [Option<usize>; MOST_FAMILIES],
    pub baskets: [Option<usize>; MOST_BASKETS],
    pub months: [Option<Kept>; MOST_MONTHS],
    pub orders: [Counted; MOST_ORDERS],
}
