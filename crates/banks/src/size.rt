// The sizes of a bank, whether a cell lies on its grid, and prices kept within a bound.
// Lines, reach and prices are capped where they are read, here and in each bank: the meaning is said of a bank with any numbers.
ghost use Rattle.std.specs.Prelude.{◌≡◌, ◌≤◌, min, unsigned_abs};
ghost use Rattle.banks.specs.Meanings.{most_reach, on_grid, capped as capped_at};

pub use terms::amounts::MOST_LINES;
pub use terms::half::COLUMNS;
use terms::half::Half;

// The largest reach that a bank may have, in grains.
pub const MOST_REACH: u64 = 2_000_000_000_000;

// A price, or 0 where it is larger than a reach, or than any reach may be. No bank that is made has such a price.
pub fn capped(reach: u64, price: i128) -> i64
    ensures value { result ≡ capped_at (min most_reach reach) price }
    ensures bounded { unsigned_abs result ≤ 2000000000000 }
{
    if price.unsigned_abs() <= u128::from(reach.min(MOST_REACH)) {
        price as i64
    } else {
        0
    }
}

// Whether a cell lies on the grid of so many lines. The place of a cell is told in the parameters of `Bank::price`.
pub fn has_cell(half: Half, lines: usize, line: usize, point: usize, column: usize) -> bool
    ensures { result ≡ on_grid half lines line point column }
{
    line < lines && point < half.points() && column < COLUMNS
}
