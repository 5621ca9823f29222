// The bounds of an account's numbers.
ghost use Rattle.std.specs.Prelude.{◌≡◌, [], ◌∷◌, unsigned_abs};
ghost use Rattle.terms.specs.Checks.{unless, decided};
ghost use Rattle.terms.specs.declared.refusal.Refusal.TheVariants.{BadAmount};
ghost use Rattle.account.specs.Account.{amount_fits, price_fits};

use terms::amounts::{MOST_CASH, MOST_PRICE};
use terms::refusal::Refusal;

// The most contracts that are accepted on a line.
pub(crate) const MOST_ACCEPTED: u64 = 20_000;

// Whether an order may have such a limit, and be filled at such a price. With the other ranges it shares the shape alone.
pub(crate) fn price_fits(price: i64) -> bool
    ensures { result ≡ price_fits price }
{
    (0..=MOST_PRICE).contains(&price)
}

// The amount of a call, or the first collateral, in kopecks.
pub(crate) fn amount_of(amount: i64) -> Result<u64, Refusal>
    ensures { result ≡ decided (unless (amount_fits amount) BadAmount ∷ []) (unsigned_abs amount) }
{
    if !(0..=MOST_CASH).contains(&amount) {
        return Err(Refusal::BadAmount);
    }
    Ok(amount.unsigned_abs())
}
