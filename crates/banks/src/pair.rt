// A pair: two banks of equal half side by side, the first bank's lines first.
ghost use Rattle.std.specs.Prelude.{◌≡◌};
ghost use Rattle.banks.specs.Layers.{MayPair, pair_made, pair_meaning};
ghost use Rattle.terms.specs.Checks.{MadeExactlyWhen};
ghost use Rattle.banks.specs.Outcomes.{told};
ghost use Rattle.banks.specs.Soundness.{pair_sound};

use crate::bank::Bank;
use crate::size::{MOST_LINES, has_cell};
use terms::half::Half;
use terms::refusal::Refusal;

#[derive(Clone, Copy, Drop)]
pub struct Pair<A, B> {
    first: A,
    second: B,
}

impl<A: Bank, B: Bank> Bank for Pair<A, B> {
    ghost meaning = { λ p. pair_meaning (A.Bank.meaning p.first) (B.Bank.meaning p.second) };

    ghost sound = { λ p. pair_sound (A.Bank.meaning p.first) (B.Bank.meaning p.second) (A.Bank.sound p.first) (B.Bank.sound p.second) };

    fn half(&self) -> Half {
        self.first.half()
    }

    fn lines(&self) -> usize {
        (self.first.lines() + self.second.lines()).min(MOST_LINES)
    }

    fn reach(&self) -> u64 {
        self.first.reach().max(self.second.reach())
    }

    fn price(&self, line: usize, point: usize, column: usize) -> i64 {
        if has_cell(self.half(), self.lines(), line, point, column) {
            let before = self.first.lines();
            if line < before {
                self.first.price(line, point, column)
            } else {
                self.second.price(line - before, point, column)
            }
        } else {
            0
        }
    }
}

impl<A: Bank + Drop, B: Bank + Drop> Pair<A, B> {
    // Sets two banks side by side. Refused where their halves differ, or where they have too many lines together.
    pub fn new(first: A, second: B) -> Result<Pair<A, B>, Refusal>
        ensures made { told (λ p. pair_meaning (A.Bank.meaning p.first) (B.Bank.meaning p.second)) result ≡ pair_made (A.Bank.meaning first) (B.Bank.meaning second) }
        ensures law { MadeExactlyWhen result (MayPair (A.Bank.meaning first) (B.Bank.meaning second)) }
    {
        if first.half() != second.half() {
            return Err(Refusal::WrongShape);
        }
        if first.lines() + second.lines() > MOST_LINES {
            return Err(Refusal::WrongShape);
        }
        Ok(Pair { first, second })
    }
}
