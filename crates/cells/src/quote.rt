// What one contract of a line is worth in a cell.
ghost use Rattle.std.specs.Prelude.{◌≤◌, unsigned_abs};

// A bank's price, or in a column of the rate curves a change of it. The column stands beside the price, as the definitions
// read it.
#[derive(Clone, Copy)]
pub(crate) struct Quote {
    pub price: i64,
    pub column: usize,
    ghost bounded: { unsigned_abs price ≤ 2000000000000 },
}
