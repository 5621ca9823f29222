// The checks before and behind the reading of forms.
ghost use Rattle.std.specs.Prelude.{◌≡◌, [], ◌∷◌};
ghost use Rattle.terms.specs.Checks.{decided};
ghost use Rattle.load.specs.Days.{contents_of};
ghost use Rattle.load.specs.Loading.{other, list_checks, text_checks};
ghost use Rattle.load.specs.Used.{Inside, used_checks};

use crate::lists::{BASKETS, FAMILIES, HELD, LINES, Lengths, Lists, MONTHS, ORDERS, PRICES};
use crate::loading::Loaded;
use deck::given::Given;
use terms::refusal::Refusal;
use text::shape::malformed;

// A text may have so many bytes.
const MOST_BYTES: usize = 65_536;

// Whether a list has the length that is wanted.
fn fits(given: usize, wanted: usize) -> Result<(), Refusal>
    ensures { result ≡ decided (other given wanted ∷ []) tt }
{
    if given == wanted {
        Ok(())
    } else {
        Err(Refusal::WrongLength(wanted))
    }
}

// Whether every list has the length that is wanted.
pub(crate) fn lists_fit(given: Lengths) -> Result<(), Refusal>
    ensures { result ≡ decided (list_checks given) tt }
{
    fits(given.families, FAMILIES)?;
    fits(given.baskets, BASKETS)?;
    fits(given.months, MONTHS)?;
    fits(given.lines, LINES)?;
    fits(given.prices, PRICES)?;
    fits(given.held, HELD)?;
    fits(given.orders, ORDERS)
}

// Whether the text is short enough and well formed.
pub(crate) fn text_fits(text: &[u8]) -> Result<(), Refusal>
    ensures { result ≡ decided (text_checks text.now) tt }
{
    if text.len() > MOST_BYTES {
        return Err(Refusal::WrongLength(MOST_BYTES));
    }
    if let Some(byte) = malformed(text) {
        return Err(Refusal::Malformed(byte));
    }
    Ok(())
}

// Whether the cards and held records in use fit together. Their judge answers a place, and not a refusal: the caller says which
// refusal it is.
pub(crate) fn cards_fit(used: &Loaded, lists: &Lists) -> Result<(), Refusal>
    requires { Inside used.now (contents_of lists.now) }
    ensures { result ≡ decided (used_checks used.now (contents_of lists.now)) tt }
{
    let given = Given {
        families: &lists.families[..used.families],
        baskets: &lists.baskets[..used.baskets],
        months: &lists.months[..used.months],
        lines: &lists.lines[..used.futures + used.options],
        futures: used.futures,
    };
    if let Some(place) = given.first_unfit(&lists.held[..used.held]) {
        return Err(Refusal::BadCard(place));
    }
    Ok(())
}
