// The positions and open orders that a margin is worked out from, within the bounds that an account keeps.
ghost use Rattle.std.specs.Prelude.{ℕ, ◌^◌, ◌≤◌, length, slice_index_or, unsigned_abs};
ghost use Rattle.cells.specs.Empty.{no_position, no_order};

use margin::book::{Open, Position};
pub use margin::choice::MOST_ORDERS;

#[derive(Clone, Copy)]
pub struct Book<'a> {
    // one for each line
    pub positions: &'a [Position],
    pub orders: &'a [Open],
    ghost few_orders: { length orders.now ≤ 32 },
    ghost nets: { ((l : ℕ) → unsigned_abs (slice_index_or positions.now l no_position).net ≤ 10000) },
    ghost costs: { ((l : ℕ) → unsigned_abs (slice_index_or positions.now l no_position).cost ≤ 2 ^ 56) },
    ghost lefts: { ((i : ℕ) → unsigned_abs (slice_index_or orders.now i no_order).left ≤ 10000) },
    ghost limits: { ((i : ℕ) → unsigned_abs (slice_index_or orders.now i no_order).limit ≤ 10000000) },
}
