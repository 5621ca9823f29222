// A scale: a bank with every price, and the reach, times a factor of 1 to 100.
ghost use Rattle.std.specs.Prelude.{◌≡◌, ◌≤◌};
ghost use Rattle.banks.specs.Layers.{MayScale, scale_judged, scale_made, scale_meaning};
ghost use Rattle.terms.specs.Checks.{MadeExactlyWhen};
ghost use Rattle.banks.specs.Outcomes.{told};
ghost use Rattle.banks.specs.Soundness.{scale_sound};

use crate::bank::Bank;
use crate::size::{MOST_REACH, capped};
use terms::cards::between;
use terms::half::Half;
use terms::refusal::Refusal;

#[derive(Clone, Copy, Drop)]
pub struct Scale<B> {
    bank: B,
    factor: u8,
}

impl<B: Bank> Bank for Scale<B> {
    ghost meaning = { λ s. scale_meaning s.factor (B.Bank.meaning s.bank) };

    ghost sound = { λ s. scale_sound s.factor (B.Bank.meaning s.bank) (B.Bank.sound s.bank) };

    fn half(&self) -> Half {
        self.bank.half()
    }

    fn lines(&self) -> usize {
        self.bank.lines()
    }

    fn reach(&self) -> u64 {
        (u64::from(self.factor) * self.bank.reach()).min(MOST_REACH)
    }

    fn price(&self, line: usize, point: usize, column: usize) -> i64 {
        let price = self.bank.price(line, point, column);
        capped(MOST_REACH, i128::from(i64::from(self.factor) * price))
    }
}

impl<B: Bank + Drop> Scale<B> {
    // Multiplies a bank. Refused where the factor is not 1 to 100, or where the reach would pass the bound.
    pub fn new(bank: B, factor: i64) -> Result<Scale<B>, Refusal>
        ensures made { told (λ s. scale_meaning s.factor (B.Bank.meaning s.bank)) result ≡ scale_made factor (B.Bank.meaning bank) }
        ensures law { MadeExactlyWhen result (MayScale factor (B.Bank.meaning bank)) }
    {
        let factor = judged(factor, bank.reach())?;
        Ok(Scale { bank, factor })
    }
}

// The factor that a bank of such a reach may be scaled by, or the first refusal.
fn judged(factor: i64, reach: u64) -> Result<u8, Refusal>
    requires { reach ≤ 2000000000000 }
    ensures { result ≡ scale_judged factor reach }
{
    if !between(factor, 1, 100) {
        return Err(Refusal::BadQuantity);
    }
    let factor = factor as u8;
    if u64::from(factor) * reach > MOST_REACH {
        return Err(Refusal::ReachTooLarge);
    }
    Ok(factor)
}
