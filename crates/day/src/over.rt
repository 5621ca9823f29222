// The account of a day, over the bank of its cards.
ghost use Rattle.std.specs.Prelude.{◌≡◌, length, pos};
ghost use Rattle.terms.specs.Halves.{half_size};
ghost use Rattle.banks.specs.Outcomes.{told};
ghost use Rattle.banks.specs.Strips.{strip_meaning};
ghost use Rattle.banks.specs.Tables.{table_made, table_meaning};
ghost use Rattle.banks.specs.Layers.{pair_made, pair_meaning};
ghost use Rattle.load.specs.Loading.{next};
ghost use Rattle.day.specs.Days.{bank_told, beside_table, strip_alone, bank_made, day_told};
ghost use Rattle.day.specs.Told.{ToldOutcome, SafeOver, SafeOn};
ghost use Rattle.day.specs.Lent.{day_of};

use crate::calling::calls_of;
use crate::lent::Day;
use banks::bank::Bank;
use banks::pair::Pair;
use banks::strip::Strip;
use banks::table::Table;
use calls::answer::Answer;
use calls::running::run;
use std::alloc::Global;
use terms::cards::Line;
use terms::fault::Fault;
use terms::half::Half;
use terms::refusal::Refusal;

// A strip beside a table of the options' rows.
fn with_table<'a>(
    strip: Strip,
    half: Half,
    options: &'a [Line],
    prices: &'a [i64],
) -> Result<Pair<Strip, Table<'a>>, Refusal>
    ensures { told (λ p. pair_meaning (strip_meaning p.first) (table_meaning p.second)) result ≡ next (table_made (pos (half_size half)) (pos (length options.now)) prices.now) (λ table. pair_made (strip_meaning strip) table) }
{
    let table = Table::new(i64::from(half), options.len() as i64, prices)?;
    Pair::new(strip, table)
}

// What the account of a day answers.
impl<'a> Day<'a> {
    // Over any bank.
    fn told_over<B: Bank + Drop>(
        self,
        heap: Global,
        bank: B,
    ) -> Result<Vec<Result<Answer, Refusal>>, Fault>
        ensures told { ToldOutcome result (bank_told (day_of self.entry) (B.Bank.meaning bank)) }
        ensures safe { SafeOver (day_of self.entry) (B.Bank.meaning bank) result }
    {
        let calls = calls_of(heap, self.orders)?;
        run(heap, bank, &self.given, self.held, self.cash, &calls)
    }

    // Over the strip beside the table.
    fn told_beside_table(
        self,
        heap: Global,
        strip: Strip,
    ) -> Result<Vec<Result<Answer, Refusal>>, Fault>
        ensures told { ToldOutcome result (next (beside_table (day_of self.entry) (strip_meaning strip)) (bank_told (day_of self.entry))) }
        ensures safe { SafeOn (day_of self.entry) (beside_table (day_of self.entry) (strip_meaning strip)) result }
    {
        let options = &self.given.lines[self.given.futures..];
        let pair = with_table(strip, self.half, options, self.prices)?;
        self.told_over(heap, pair)
    }

    // Over the strip of the futures, alone or beside the table.
    fn told_over_strip(
        self,
        heap: Global,
        strip: Strip,
    ) -> Result<Vec<Result<Answer, Refusal>>, Fault>
        ensures told { ToldOutcome result (next (strip_alone (day_of self.entry) (strip_meaning strip)) (bank_told (day_of self.entry))) }
        ensures safe { SafeOn (day_of self.entry) (strip_alone (day_of self.entry) (strip_meaning strip)) result }
    {
        if self.given.lines[self.given.futures..].is_empty() {
            self.told_over(heap, strip)
        } else {
            self.told_beside_table(heap, strip)
        }
    }

    // Over the bank of its cards.
    pub(crate) fn told(self, heap: Global) -> Result<Vec<Result<Answer, Refusal>>, Fault>
        ensures told { ToldOutcome result (day_told (day_of self.entry)) }
        ensures safe { SafeOn (day_of self.entry) (bank_made (day_of self.entry)) result }
    {
        let strip = Strip::new(
            i64::from(self.half),
            &self.given.lines[..self.given.futures],
        )?;
        self.told_over_strip(heap, strip)
    }
}
