// The numbers that an account and its prices are counted in, and the largest of them; each stands here once.

// How many grains a kopeck has. A grain is what the engine counts in, so that nothing is rounded before the margin.
pub const GRAINS: u64 = 80_000;

// The most lines of a bank, and of an account.
pub const MOST_LINES: usize = 16;

// The largest price, in kopecks.
pub const MOST_PRICE: i64 = 10_000_000;

// The most contracts that an order has, and that a line holds or is short of.
pub const MOST_CONTRACTS: i64 = 10_000;

// The largest collateral, in kopecks.
pub const MOST_CASH: i64 = 100_000_000_000_000;
