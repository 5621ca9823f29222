// A table: prices that the caller keeps in a list, in whole kopecks. It lies at the bottom of a pile of layers.
ghost use Rattle.std.specs.Prelude.{◌≡◌, ◌*◌, ◌<◌, ◌≤◌, pos, ◌*ℤ◌, slice_index_or};
ghost use Rattle.banks.specs.Meanings.{grains};
ghost use Rattle.terms.specs.Checks.{MadeExactlyWhen};
ghost use Rattle.banks.specs.Outcomes.{told};
ghost use Rattle.banks.specs.Soundness.{bounded_sound};
ghost use Rattle.banks.specs.Tables.{most_entry, listed, entry_at, entries as entry_count, fits_at, table_judged, table_made, table_meaning, MayTabulate};

use crate::bank::Bank;
use crate::size::{COLUMNS, MOST_LINES, capped, has_cell};
use terms::amounts::{GRAINS, MOST_PRICE};
use terms::cards::between;
use terms::half::{Half, VOLATILITIES};
use terms::judge::first_unfit;
use terms::refusal::Refusal;

// what the largest entry comes to in grains
const TABLE_REACH: u64 = GRAINS * MOST_PRICE as u64;

#[derive(Clone, Copy, Drop)]
pub struct Table<'a> {
    half: Half,
    count: usize,
    // one list, as the caller keeps it, row after row; nothing is copied
    entries: &'a [i64],
}

impl<'a> Bank for Table<'a> {
    ghost meaning = { table_meaning };

    ghost sound = { λ t. bounded_sound t.half t.count (grains * most_entry) (listed t.half t.entries.now) };

    fn half(&self) -> Half {
        self.half
    }

    // of its own field, as a strip's: a trait has no fields
    fn lines(&self) -> usize {
        self.count.clamp(1, MOST_LINES)
    }

    fn reach(&self) -> u64 {
        TABLE_REACH
    }

    fn price(&self, line: usize, point: usize, column: usize) -> i64 {
        if has_cell(self.half, self.lines(), line, point, column) {
            capped(
                TABLE_REACH,
                self.entry(place(self.half, line, point, column)),
            )
        } else {
            0
        }
    }
}

impl<'a> Table<'a> {
    // Reads prices from a list that the caller keeps: for each line and column, in this order, a price for each point.
    // Refused where the half or the number of lines is none of a bank's, where the list has another length, or where an
    // entry lies outside its field.
    pub fn new(half: i64, lines: i64, entries: &'a [i64]) -> Result<Table<'a>, Refusal>
        ensures made { told table_meaning result ≡ table_made half lines entries.now }
        ensures law { MadeExactlyWhen result (MayTabulate half lines entries.now) }
    {
        let half = judged(half, lines, entries)?;
        Ok(Table {
            half,
            // 1 to 16, as was judged
            count: lines as usize,
            entries,
        })
    }

    // The entry at a place, in grains; 0 past the list's end.
    fn entry(&self, place: usize) -> i128
        ensures { result ≡ pos grains *ℤ slice_index_or self.now.entries.now place (pos 0) }
    {
        let kopecks = self.entries.get(place).copied().unwrap_or(0);
        i128::from(GRAINS) * i128::from(kopecks)
    }
}

// The grid of a list that may be a table, or the first refusal.
fn judged(half: i64, lines: i64, entries: &[i64]) -> Result<Half, Refusal>
    ensures { result ≡ table_judged half lines entries.now }
{
    let grid = Half::of(half).ok_or(Refusal::WrongShape)?;
    if !between(lines, 1, MOST_LINES as i64) {
        return Err(Refusal::WrongShape);
    }
    let wanted = length(grid, lines as usize);
    if entries.len() != wanted {
        return Err(Refusal::WrongLength(wanted));
    }
    if let Some(place) = first_unfit(entries, |place, entry| fits(grid, place, *entry)) {
        return Err(Refusal::OutsideField(place));
    }
    Ok(grid)
}

// How many entries a table of so many lines has.
fn length(half: Half, lines: usize) -> usize
    requires { lines ≤ 16 }
    ensures { result ≡ entry_count half lines }
{
    lines * COLUMNS * half.points()
}

// Where the entry of a cell stands in the list.
fn place(half: Half, line: usize, point: usize, column: usize) -> usize
    requires { (line < 16) × ((point < 17) × (column < 7)) }
    ensures { result ≡ entry_at half line point column }
{
    (line * COLUMNS + column) * half.points() + point
}

// Whether the entry at a place lies in its field: a price is never below 0.
fn fits(half: Half, place: usize, entry: i64) -> bool
    ensures { result ≡ fits_at half place entry }
{
    if place / half.points() % COLUMNS < VOLATILITIES {
        between(entry, 0, MOST_PRICE)
    } else {
        between(entry, -MOST_PRICE, MOST_PRICE)
    }
}
