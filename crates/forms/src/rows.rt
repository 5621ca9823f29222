// Rows of prices. Which row is due, how many prices it has and what they may be follow from what stands before it.
ghost use Rattle.std.specs.Prelude.{◌≡◌, [], length};
ghost use Rattle.forms.specs.Fields.{asked};
ghost use Rattle.forms.specs.Moves.{Moves, holding};
ghost use Rattle.forms.specs.Reads.{Listed, numbers_in, inner_in};
ghost use Rattle.forms.specs.Rows.{price_allowed, prices_asked, is_due, due_in, front_in, added, row_in, rows_in, ReadsRows};
ghost use Rattle.terms.specs.Halves.{points};

use crate::field::{Allowed, Field};
use crate::reader::Reader;
use terms::amounts::MOST_PRICE;
use terms::half::{COLUMNS, Half, VOLATILITIES};
use terms::refusal::Refusal;

const LINE: Field = Field {
    head: b"line",
    count: 1,
    allowed: Allowed::Any,
};

const COLUMN: Field = Field {
    head: b"column",
    count: 1,
    allowed: Allowed::Any,
};

// The numbers that a price in a column may be.
fn allowed_in(column: usize) -> Allowed
    ensures { result ≡ price_allowed column }
{
    if column < VOLATILITIES {
        Allowed::Between(0, MOST_PRICE)
    } else {
        Allowed::Between(-MOST_PRICE, MOST_PRICE)
    }
}

fn prices_of(half: Half, column: usize) -> Field
    ensures { asked result ≡ prices_asked half column }
{
    Field {
        head: b"prices",
        count: half.points(),
        allowed: allowed_in(column),
    }
}

// Whether a number is the one that is due.
fn is_due(due: u128, number: i64) -> bool
    ensures { result ≡ is_due due number }
{
    u128::try_from(number).is_ok_and(|n| n == due)
}

impl Reader<'_> {
    // The numbers of an inner form, written into a list of as many.
    fn numbers_into(&mut self, field: &Field, out: &mut [i64]) -> Result<(), Refusal>
        requires { length out.old ≡ field.now.count }
        ensures { Moves (λ text at. numbers_in added field.now.allowed text field.now.count 0 [] at) self.old self.new (holding result out.new) }
    {
        for price in out.iter_mut() {
            *price = self.spaced_number(field.allowed)?;
        }
        Ok(())
    }

    // An inner form, its numbers written into a list of as many. Like one that fills a record, but for the list: one function
    // for both would take a closure over the reader and the list, and its contract would have to say what it does to each.
    fn inner_numbers(&mut self, field: &Field, out: &mut [i64]) -> Result<(), Refusal>
        requires { length out.old ≡ field.now.count }
        ensures { Moves (λ text at. inner_in added (asked field.now) text [] at) self.old self.new (holding result out.new) }
    {
        let bracket = self.open_inner()?;
        self.asked_head(field, bracket)?;
        self.numbers_into(field, out)?;
        self.expect(')')
    }

    // An inner form of one number, which has to be the one that is due. Another number is refused at the row's bracket.
    fn due_number(&mut self, field: &Field, due: u128, bracket: usize) -> Result<(), Refusal>
        requires { field.now.count ≡ 1 }
        ensures { Moves (due_in (asked field.now) due bracket) self.old self.new result }
    {
        // A list of one, so that one function reads the inner forms of a row.
        let mut number = [0];
        self.inner_numbers(field, &mut number)?;
        if is_due(due, number[0]) {
            Ok(())
        } else {
            Err(Refusal::WrongForm(bracket))
        }
    }

    // The front of a row: its head, then its line and its column, each judged before what stands behind it is read.
    fn row_front(&mut self, line: u128, column: usize) -> Result<(), Refusal>
        ensures { Moves (front_in line column) self.old self.new result }
    {
        let bracket = self.place();
        self.outer_head(b"row")?;
        self.due_number(&LINE, line, bracket)?;
        self.due_number(&COLUMN, column as u128, bracket)
    }

    // The row that is due, its prices written into a list of as many. What says which row is due comes apart, since a struct of it would
    // live for one call.
    fn row(&mut self, line: u128, column: usize, half: Half, out: &mut [i64]) -> Result<(), Refusal>
        requires { length out.old ≡ points half }
        ensures { Moves (λ text at. row_in line column half text [] at) self.old self.new (holding result out.new) }
    {
        self.row_front(line, column)?;
        self.inner_numbers(&prices_of(half, column), out)?;
        self.close_line()
    }

    // So many rows, those of the line `first` before those of the lines behind it, seven for each line; their prices are
    // written into the list from its start. Answers how many prices they are. A row for which the list has no room is
    // refused at its bracket.
    pub fn rows(
        &mut self,
        first: usize,
        half: Half,
        count: usize,
        out: &mut [i64],
    ) -> Result<usize, Refusal>
        ensures answer { Listed (rows_in first half self.old.text.now (length out.old) count 0 [] self.old.at) result self.new.at out.old out.new }
        ensures same { self.new.text.now ≡ self.old.text.now }
        ensures reads { ReadsRows }
    {
        let size = half.points();
        // The end is counted by hand: tried `chunks_exact_mut` and `split_at_mut`, but no proof closed, since of a list that a loop
        // writes through them nothing is known behind the loop.
        let mut end = 0;
        // The caller counts rows, and may stop within a line, so that no loop over lines holds one over columns.
        for index in 0..count {
            if out.len() - end < size {
                return Err(Refusal::WrongForm(self.place()));
            }
            let line = first as u128 + (index / COLUMNS) as u128;
            self.row(line, index % COLUMNS, half, &mut out[end..end + size])?;
            end += size;
        }
        Ok(end)
    }
}
