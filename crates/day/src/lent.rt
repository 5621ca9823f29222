// The day of a session file, whose records stand in lists.
ghost use Rattle.std.specs.Prelude.{◌≤◌, length};

use deck::given::Given;
use kinds::Order;
use terms::cards::Held;
use terms::half::Half;

#[derive(Clone, Copy)]
pub struct Day<'a> {
    pub half: Half,
    // the collateral, in kopecks
    pub cash: i64,
    pub given: Given<'a>,
    // those of the options, row after row; flat, since how long a row is depends on the grid
    pub prices: &'a [i64],
    pub held: &'a [Held],
    pub orders: &'a [Order],
    ghost inside: { given.futures ≤ length given.lines.now },
}
