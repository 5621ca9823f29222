// What an account holds and has on offer, as far as its margin reads it.

// The position in one line. Buys raise the net and sells lower it; the cost is what was paid less what was received, in grains.
#[derive(Clone, Copy, PartialEq, Eq, Debug, Default)]
pub struct Position {
    pub net: i64,
    pub cost: i64,
}

// What is left of an open order: contracts of a line, those to buy positive and those to sell negative, and the limit price in kopecks.
#[derive(Clone, Copy, PartialEq, Eq, Debug, Default)]
pub struct Open {
    pub line: usize,
    pub left: i64,
    pub limit: i64,
}
