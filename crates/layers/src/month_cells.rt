// The cells of every month that there may be.
ghost use Rattle.std.specs.Prelude.{◌≡◌, ℕ, ◌^◌, ◌≤◌, length, pos, slice_index_or, unsigned_abs};

use margin::choice::MOST_MONTHS;
use terms::half::{COLUMNS, MOST_POINTS};

// How many cells eight months have.
pub const CELLS: usize = MOST_MONTHS * MOST_POINTS * COLUMNS;

// For each of eight months, 17 points of seven columns, flat, since callers hand them in and read them so. None is larger than
// the bound, so that no sum of them leaves 128 bits.
#[derive(Clone, Copy)]
pub struct MonthCells {
    pub cells: [i128; CELLS],
    ghost room: { length cells ≡ 952 },
    ghost bounded: { ((i : ℕ) → unsigned_abs (slice_index_or cells i (pos 0)) ≤ 2 ^ 70) },
}
